//! The books of a server, its counts of calls and mails (`docs/model.md`, "Mails, connections and books"), as
//! it prints them at its end.

ghost use Rattle.std.specs.Prelude.{◌≡◌, ◌++◌, string_bytes, IfOk, OnOk};
ghost use Rattle.fe_server.specs.BooksText.{made_text, unmade_text, mails_line, books_text};

use fe_front::Books;
use fe_memory::OutOfMemory;
use std::alloc::Global;

/// Writes how many calls there were, how many completed, and how many wait.
fn put_made(text: &mut String, books: &Books) -> Result<(), OutOfMemory>
    ensures { OnOk result (string_bytes text.new ≡ string_bytes text.old ++ made_text books.now) }
{
    let (calls, completed, waiting) = (books.calls, books.completed, books.waiting);
    write!(
        text,
        "calls {calls} completed {completed} waiting {waiting}"
    )?;
    Ok(())
}

/// Writes how many calls ended with no answer of their own.
fn put_unmade(text: &mut String, books: &Books) -> Result<(), OutOfMemory>
    ensures { OnOk result (string_bytes text.new ≡ string_bytes text.old ++ unmade_text books.now) }
{
    let (withdrawn, repeated, refused) = (books.withdrawn, books.repeated, books.refused);
    write!(
        text,
        " withdrawn {withdrawn} repeated {repeated} refused {refused}\n"
    )?;
    Ok(())
}

/// Writes what became of the mails.
fn put_mails(text: &mut String, books: &Books) -> Result<(), OutOfMemory>
    ensures { OnOk result (string_bytes text.new ≡ string_bytes text.old ++ mails_line books.now) }
{
    let (mails, taken, dropped, left) = (books.mails, books.taken, books.dropped, books.left);
    write!(
        text,
        "mails {mails} taken {taken} dropped {dropped} left {left}\n"
    )?;
    Ok(())
}

/// The text of the books, two lines: what became of the calls, and of the mails. Fails if there is no memory
/// for it.
pub fn books_text(alloc: Global, books: &Books) -> Result<String, OutOfMemory>
    ensures { IfOk result (λ text. string_bytes text ≡ books_text books.now) }
{
    let mut text = String::new(alloc);
    put_made(&mut text, books)?;
    put_unmade(&mut text, books)?;
    put_mails(&mut text, books)?;
    Ok(text)
}

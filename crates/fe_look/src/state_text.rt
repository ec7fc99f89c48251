//! A server state as text, as `femem look` prints it (`docs/operating.md`, "What a server says").

ghost use Rattle.std.specs.Prelude.{◌≡◌, ◌++◌, true, string_bytes, length, IfOk, OnOk};
ghost use Rattle.std.specs.FinMap.{entries};
ghost use Rattle.std.specs.List.{flat_map};
ghost use Rattle.fe_state.specs.Name.{is_plain};
ghost use Rattle.fe_look.specs.Look.{array_line, session_line, line_of_array, line_of_session, state_text};

use fe_memory::OutOfMemory;
use fe_state::{Name, State};
use std::alloc::Global;

/// Writes the line of an array.
fn put_array(text: &mut String, id: u64, name: &Name, length: usize) -> Result<(), OutOfMemory>
    requires { is_plain name.now ≡ true }
    ensures { OnOk result (string_bytes text.new
        ≡ string_bytes text.old ++ line_of_array id name.now length) }
{
    let name = str::from_utf8(name.bytes()).unwrap();
    write!(text, "array {id} {name} {length}\n")?;
    Ok(())
}

/// Writes the lines of the arrays.
fn put_arrays(text: &mut String, state: &State) -> Result<(), OutOfMemory>
    ensures { OnOk result (string_bytes text.new
        ≡ string_bytes text.old ++ flat_map array_line (entries state.now.arrays)) }
{
    let _ = state.place();
    for k in 0..state.array_count() {
        if let Some((id, name, words)) = state.array_entry(k) {
            put_array(text, id, name, words.len())?;
        }
    }
    Ok(())
}

/// Writes the line of a session.
fn put_session(text: &mut String, number: u64, floor: u64, kept: usize) -> Result<(), OutOfMemory>
    ensures { OnOk result (string_bytes text.new
        ≡ string_bytes text.old ++ line_of_session number floor kept) }
{
    write!(text, "session {number} floor {floor} kept {kept}\n")?;
    Ok(())
}

/// Writes the lines of the sessions.
fn put_sessions(text: &mut String, state: &State) -> Result<(), OutOfMemory>
    ensures { OnOk result (string_bytes text.new
        ≡ string_bytes text.old ++ flat_map session_line (entries state.now.sessions)) }
{
    for k in 0..state.session_count() {
        if let Some((number, floor, answers)) = state.session_entry(k) {
            put_session(text, number, floor, answers.len())?;
        }
    }
    Ok(())
}

/// The text of a state.
pub(crate) fn state_text(alloc: Global, state: &State) -> Result<String, OutOfMemory>
    ensures { IfOk result (λ text. string_bytes text ≡ state_text state.now) }
{
    let mut text = String::new(alloc);
    let place = state.place();
    write!(text, "place {place}\n")?;
    put_arrays(&mut text, state)?;
    put_sessions(&mut text, state)?;
    Ok(text)
}

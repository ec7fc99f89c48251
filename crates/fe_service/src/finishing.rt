//! Completing a request that operates on a word, or makes or removes an array, and what it lets complete of
//! those that wait (`docs/model.md`, "The service").

ghost use Rattle.std.specs.Prelude.{◌≡◌, ◌+◌, List, [], length as length_of, OnOk, OnErr};
ghost use Rattle.fe_state.specs.declared.entry.Entry.{Entry};
ghost use Rattle.fe_state.specs.declared.entry.Entry.TheVariants.{Finished};
ghost use Rattle.fe_state.specs.declared.request.Request.TheVariants as requests;
ghost use Rattle.fe_state.specs.declared.answer.Answer.TheVariants as answers;
ghost use Rattle.fe_service.specs.Events.{MayComplete, Completes};

use crate::service::Service;
use fe_memory::OutOfMemory;
use fe_state::{Answer, Effect, Entry, Name, Request};
use fe_words::{Tag, Word};

impl Service {
    /// Finishes an operation on a word, and serves the requests that wait on the word and may then be served.
    /// Returns how many entries that made.
    pub(crate) fn finish_write(
        &mut self,
        session: u64,
        number: u64,
        request: Request,
        answer: Answer,
        array: u64,
        index: u32,
        word: Word,
    ) -> u32
        requires { MayComplete self.old session number request answer (Effect.Write array index word) }
        ensures completes { (served : List Entry)
            × Completes self.old self.new (Finished session number request answer) served
            × (result ≡ 1 + length_of served) }
    {
        self.inner.limits();
        let entry = Entry::Finished {
            session,
            number,
            request,
            answer,
        };
        self.inner
            .enter(entry, Effect::Write { array, index, word });
        1 + self.inner.serve_word(array, index)
    }

    /// Finishes a removal, and serves those that wait on the array's words. Returns how many entries that
    /// made.
    pub(crate) fn finish_remove(
        &mut self,
        session: u64,
        number: u64,
        array: u64,
        answer: Answer,
    ) -> u32
        requires { MayComplete self.old session number (requests.Remove array) answer (Effect.Remove array) }
        ensures completes { (served : List Entry)
            × Completes self.old self.new (Finished session number (requests.Remove array) answer) served
            × (result ≡ 1 + length_of served) }
    {
        self.inner.limits();
        let length = self.inner.state.length(array).unwrap();
        let entry = Entry::Finished {
            session,
            number,
            request: Request::Remove { array },
            answer,
        };
        self.inner.enter(entry, Effect::Remove { array });
        let served = self.inner.serve_array(array, length);
        let attachments = &mut self.inner.attachments;
        attachments.waits.drop_array(array);
        1 + served
    }

    /// Makes an array. Fails only if memory runs out for its words or its waiting lists; then nothing has
    /// changed.
    pub(crate) fn finish_create(
        &mut self,
        session: u64,
        number: u64,
        name: Name,
        length: u32,
        tag: Tag,
        id: u64,
    ) -> Result<(), OutOfMemory>
        requires { MayComplete self.old session number (requests.Create name length tag)
            (answers.Array id length)
            Effect.Create }
        ensures completes { OnOk result
            (Completes self.old self.new
            (Finished session number (requests.Create name length tag) (answers.Array id length)) []) }
        ensures err { OnErr result (self.new ≡ self.old) }
    {
        self.inner.limits();
        let attachments = &mut self.inner.attachments;
        attachments.waits.add_array(id, length)?;
        let entry = Entry::Finished {
            session,
            number,
            request: Request::Create { name, length, tag },
            answer: Answer::Array { id, length },
        };
        let made = entry;
        if let Err(fault) = self.inner.state.advance(made, Effect::Create) {
            attachments.waits.drop_array(id);
            return Err(fault);
        }
        self.inner.pending.push(entry);
        Ok(())
    }
}

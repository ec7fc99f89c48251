//! Which receipts are strange: what is kept or what was sent speaks against them (`docs/model.md`, "The
//! hall").

ghost use Rattle.std.specs.Prelude.{◌≡◌, ◌↔◌, ℕ, IsTrue, Some, All, map, Any, IfSome, IfNone};
ghost use Rattle.std.specs.Bool.{OnTrue, OnFalse};
ghost use Rattle.std.specs.FinMap.{get};
ghost use Rattle.fe_state.specs.declared.kept.Kept.{Kept};
ghost use Rattle.fe_wire.specs.declared.client_message.ClientMessage.TheVariants.{Call};
ghost use Rattle.fe_history.specs.Receipts.{IsAsIssued, IsCalledBehind, WasSent, AreWhole, IsStrange};
ghost use Rattle.fe_history.specs.Receipts.{IsBorneOut, IsFirstStrange, Keeps};

use crate::receipt::Receipt;
use fe_front::is_same;
use fe_state::{Kept, KeptAnswers, Request, State};
use fe_wire::ClientMessage;

/// The most messages in a read side's list of what its client sent.
pub const LISTED: usize = 1024;

/// The place of the first strange receipt, if one is. `sent` has the list of each read side.
pub fn first_strange(
    state: &State,
    sent: &[Vec<ClientMessage>],
    receipts: &[Receipt],
) -> Option<u64>
    ensures some { IfSome result (λ place. IsFirstStrange state.now (map (λ v. v.items) sent.now) receipts.now
        place) }
    ensures none { IfNone result (All (IsBorneOut state.now (map (λ v. v.items) sent.now)) receipts.now) }
{
    for receipt in receipts {
        if is_strange(state, sent, receipt) {
            return Some(receipt.place);
        }
    }
    None
}

/// Whether what a state keeps, or what was sent, speaks against a receipt.
fn is_strange(state: &State, sent: &[Vec<ClientMessage>], receipt: &Receipt) -> bool
    ensures strange { IsTrue result ↔ IsStrange state.now (map (λ v. v.items) sent.now) receipt.now }
    ensures borne_out { OnFalse result (IsBorneOut state.now (map (λ v. v.items) sent.now) receipt.now) }
{
    if receipt.place >= state.place() || keeps_other(state, receipt) {
        return true;
    }
    let Some(kept) = state.kept(receipt.session, receipt.number) else {
        return false;
    };
    if kept.place < receipt.place {
        return true;
    }
    if kept.place > receipt.place {
        return false;
    }
    is_missed(sent, receipt, &kept.request)
}

/// Whether a state keeps something else than a receipt says, at the receipt's place.
fn keeps_other(state: &State, receipt: &Receipt) -> bool
    ensures other { OnTrue result ((session : ℕ) × (number : ℕ) × (k : Kept)
        × Keeps state.now session number k
        × (k.place ≡ receipt.now.place) × (IsAsIssued receipt.now session number k → ⊥)) }
    ensures none { OnFalse result ((session : ℕ) (number : ℕ) (k : Kept) → Keeps state.now session number k
        → k.place ≡ receipt.now.place → IsAsIssued receipt.now session number k) }
{
    for k in 0..state.session_count() {
        let (session, _, answers) = state.session_entry(k).unwrap();
        if holds_other(session, answers, receipt) {
            return true;
        }
    }
    false
}

/// Whether a session keeps something else than a receipt says, at the receipt's place.
fn holds_other(session: u64, answers: KeptAnswers<'_>, receipt: &Receipt) -> bool
    ensures other { OnTrue result ((number : ℕ) × (k : Kept) × (get answers.entry number ≡ Some k)
        × (k.place ≡ receipt.now.place) × (IsAsIssued receipt.now session number k → ⊥)) }
    ensures none { OnFalse result ((number : ℕ) (k : Kept) → get answers.entry number ≡ Some k
        → k.place ≡ receipt.now.place → IsAsIssued receipt.now session number k) }
{
    for (number, kept) in answers {
        if kept.place == receipt.place && !is_as_issued(receipt, session, number, kept) {
            return true;
        }
    }
    false
}

/// Whether what is kept for a number of a session is what a receipt says.
fn is_as_issued(receipt: &Receipt, session: u64, number: u64, kept: &Kept) -> bool
    ensures { IsTrue result ↔ IsAsIssued receipt.now session number kept.now }
{
    session == receipt.session && number == receipt.number && kept.answer == receipt.answer
}

/// Whether the lists hold all that was sent, and none has a call of the receipt's number with this request
/// behind an attach of its session.
fn is_missed(sent: &[Vec<ClientMessage>], receipt: &Receipt, request: &Request) -> bool
    ensures missed { OnTrue result (AreWhole (map (λ v. v.items) sent.now)
        × (WasSent (map (λ v. v.items) sent.now) receipt.now.session receipt.now.number request.now → ⊥)) }
    ensures sent { OnFalse result (AreWhole (map (λ v. v.items) sent.now)
        → WasSent (map (λ v. v.items) sent.now) receipt.now.session receipt.now.number request.now) }
{
    sent.iter()
        .all(|messages| messages.as_slice().len() < LISTED)
        && !was_sent(sent, receipt, request)
}

/// Whether one of the lists has a call of the receipt's number with this request behind an attach of its
/// session.
fn was_sent(sent: &[Vec<ClientMessage>], receipt: &Receipt, request: &Request) -> bool
    ensures { IsTrue result ↔ WasSent (map (λ v. v.items) sent.now) receipt.now.session receipt.now.number
        request.now }
{
    sent.iter().any(|messages| {
        is_called_behind(
            messages.as_slice(),
            receipt.session,
            receipt.number,
            request,
        )
    })
}

/// Whether messages have a call of this number and request after an attach of the session.
fn is_called_behind(
    messages: &[ClientMessage],
    session: u64,
    number: u64,
    request: &Request,
) -> bool
    ensures { IsTrue result ↔ IsCalledBehind messages.now session number request.now }
{
    let attach = ClientMessage::Attach { session };
    match messages.iter().position(|message| *message == attach) {
        Some(at) => has_call(&messages[at + 1..], number, request),
        None => false,
    }
}

/// Whether messages have a call of this number and request.
fn has_call(messages: &[ClientMessage], number: u64, request: &Request) -> bool
    ensures { IsTrue result ↔ Any (λ message. message ≡ Call number request.now) messages.now }
{
    messages
        .iter()
        .any(|message| is_call(message, number, request))
}

/// Whether a message is the call of this number and request.
fn is_call(message: &ClientMessage, number: u64, request: &Request) -> bool
    ensures { IsTrue result ↔ (message.now ≡ Call number request.now) }
{
    match message {
        ClientMessage::Call {
            number: asked,
            request: content,
        } => *asked == number && is_same(content, request),
        _ => false,
    }
}

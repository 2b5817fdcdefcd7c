//! A ticket by its run.
ghost use Rattle.std.specs.Prelude.{◌≡◌, position, find};
ghost use Rattle.ph_doings.specs.Kept.{is_run};
ghost use Rattle.ph_replay.specs.Tickets.{without_first};

use ph_attempts::Ticket;

// Where the ticket of a caller's run is.
fn place(tickets: &[Ticket], caller: u64, run: u64) -> Option<usize>
    ensures { result ≡ position (is_run caller run) tickets.now }
{
    tickets
        .iter()
        .position(|ticket| ticket.run() == run && ticket.caller() == caller)
}

/// Takes the ticket of a caller's run out. None, where none is of that run; then nothing is taken.
#[tactic(auto, using(crate::proofs::RunLemmas::found_at, crate::proofs::RunLemmas::left_at, crate::proofs::RunLemmas::found_none, crate::proofs::RunLemmas::left_none))]
pub(crate) fn take_ticket(tickets: &mut Vec<Ticket>, caller: u64, run: u64) -> Option<Ticket>
    ensures found { result ≡ find (is_run caller run) tickets.old.items }
    ensures left { tickets.new.items ≡ without_first (is_run caller run) tickets.old.items }
{
    match place(tickets, caller, run) {
        Some(at) => Some(tickets.remove(at)),
        None => None,
    }
}

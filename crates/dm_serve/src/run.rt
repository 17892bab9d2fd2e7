ghost use Rattle.std.specs.Prelude.{◌≡◌, IsTrue, ◌↔◌};
ghost use Rattle.dm_types.specs.Faults.{NoneFell, Rose};
ghost use Rattle.dm_edge.specs.declared.fault.EdgeFault.TheVariants.{Failed};
ghost use Rattle.dm_store.specs.Origin.{said_of};
ghost use Rattle.dm_does.specs.Printing.{SameCounts};
ghost use Rattle.dm_past.specs.Past.{past_of};
ghost use Rattle.dm_list.specs.Writing.{outputs_of};
ghost use Rattle.dm_session.specs.Explaining.{world_of};
ghost use Rattle.dm_session.specs.Serving.{IsTold};
ghost use Rattle.dm_serve.specs.Explaining.{AsksServe, BeginsServe, ServeExplains, ServesWords};

use dm_conns::Conns;
use dm_disk_model::Disk;
use dm_edge::{Clock, Origin, Sink};
use dm_hist::Keeper;
use dm_list::{Ran, print_ending};
use dm_report::{Ending, Verdict};
use dm_session::{Session, run_session};
use dm_types::Text;
use dm_words::{BadWords, read_serve};
use std::alloc::Global;

/// Whether the words are for this run: the first one is `serve`.
pub fn is_serve(words: &[Text]) -> bool
    ensures { IsTrue result ↔ BeginsServe words.now }
{
    match words {
        [first, ..] => first.is(b"serve"),
        [] => false,
    }
}

/// Serves at this moment, where the words ask for it.
fn serve_at<D: Disk, O: Origin, K: Keeper, C: Clock, X: Conns>(
    alloc: Global,
    words: &[Text],
    disk: D,
    origin: O,
    conns: &mut X,
    keeper: &mut K,
    clock: &mut C,
    at: u64,
    requests: u32,
) -> Session<D>
    ensures serves { ServesWords (record { disk = D.tells; conns = X.tells; past = K.tells; moment = IsTold C.tells C.next; accepts = SameCounts (X.faults conns.old) (X.faults conns.new); accept_failed = Rose (X.faults conns.old Failed) (X.faults conns.new Failed) }) D.history D.faults (λ o. said_of (O.says o)) origin words.now at
        (world_of D.history D.faults disk) (world_of D.history D.faults result.disk) (past_of K.rows K.faults keeper.old) (past_of K.rows K.faults keeper.new) (D.far disk) (D.far result.disk)
        (record { over = X.over conns.old; count = X.served conns.old }) (record { over = X.over conns.new; count = X.served conns.new }) requests result.ending }
    ensures later { NoneFell (X.faults conns.old) (X.faults conns.new) }
{
    match read_serve(words) {
        Ok(_) => run_session(alloc, disk, origin, conns, keeper, clock, at, requests),
        Err(BadWords) => Session {
            ending: Ending::fixed(alloc, Verdict::BadWords),
            disk,
        },
    }
}

/// One run of `serve`: so many connections are answered from the list of a disk and from the history, one after another, and the disk is
/// handed back. It ends before, behind a reply that ends it, or where no connection can be accepted. The port that the words
/// tell is the caller's, who hands the connections in. The clock is asked once before anything is done, and once for each
/// connection.
pub fn run_serve<D: Disk, O: Origin, K: Keeper, C: Clock, S: Sink, X: Conns>(
    alloc: Global,
    words: &[Text],
    disk: D,
    origin: O,
    conns: &mut X,
    keeper: &mut K,
    clock: &mut C,
    out: &mut S,
    errs: &mut S,
    requests: u32,
) -> Ran<D>
    ensures explains { ServeExplains (record { disk = D.tells; conns = X.tells; past = K.tells; moment = IsTold C.tells C.next; accepts = SameCounts (X.faults conns.old) (X.faults conns.new); accept_failed = Rose (X.faults conns.old Failed) (X.faults conns.new Failed) }) (record { disk = D.tells; clock = C.tells; outputs = S.tells }) D.history D.faults (λ o. said_of (O.says o)) origin words.now (C.next clock.old)
        (world_of D.history D.faults disk) (world_of D.history D.faults result.disk) (past_of K.rows K.faults keeper.old) (past_of K.rows K.faults keeper.new) (D.far disk) (D.far result.disk)
        (record { over = X.over conns.old; count = X.served conns.old }) (record { over = X.over conns.new; count = X.served conns.new }) requests
        (outputs_of S.written S.faults out.old errs.old) (outputs_of S.written S.faults out.new errs.new) result.status }
    ensures later { NoneFell (X.faults conns.old) (X.faults conns.new) }
{
    let at = clock.now();
    let Session { ending, disk } = serve_at(
        alloc, words, disk, origin, conns, keeper, clock, at, requests,
    );
    let status = print_ending(&ending, out, errs);
    Ran { status, disk }
}

// A whole list of calls, sent to a new store.
ghost use Rattle.std.specs.Prelude.{◌≡◌, length, drop};
ghost use Rattle.store.specs.Ledger.{ledger};
ghost use Rattle.store.specs.Table.{ledger_of};
ghost use Rattle.store.specs.Answers.{lines};
ghost use Rattle.history.specs.Runs.{calls_of, AllAnswered, rows_left, Alike};

use fixed::slices::put;
use site::SiteMap;
use store::store::Store;
use store::types::{Answer, Call, Refusal, Row};

/// Makes a store over a map, sends it the calls in their order, each with the same lent rows, and notes as many of the answers
/// as there are places for. The store's ledger is that of the calls, each answer is the one that the rules give at the ledger
/// of the calls before it, and the rows are left as the calls wrote them one after the other.
pub fn run<M: SiteMap>(
    map: M,
    calls: &[Call<'_>],
    rows: &mut [Row],
    answers: &mut [Result<Answer, Refusal>],
) -> Store<M>
    ensures map { result.map ≡ map }
    ensures ledger { ledger_of result ≡ ledger (M.meaning map) (calls_of calls.now (length rows.old)) }
    ensures answers { AllAnswered (M.meaning map) (length rows.old) (calls_of calls.now (length rows.old)) answers.new }
    ensures rows { lines rows.new ≡ rows_left (M.meaning map) (calls_of calls.now (length rows.old)) (lines rows.old) }
    ensures past { drop (length calls.now) answers.new ≡ drop (length calls.now) answers.old }
{
    let mut store = Store::new(map);
    for (i, call) in calls.iter().enumerate() {
        let answer = store.call(call, rows);
        put(answers, i, answer);
    }
    store
}

/// Sends the calls to two new stores, over two maps that may be of two kinds: a run each, first the one and then the other. Where
/// the maps mean the same, both answer every call alike, and their ledgers are one.
pub fn run_both<M: SiteMap, N: SiteMap>(
    map: M,
    other: N,
    calls: &[Call<'_>],
    rows: &mut [Row],
    answers: &mut [Result<Answer, Refusal>],
    others: &mut [Result<Answer, Refusal>],
) -> (Store<M>, Store<N>)
    ensures first { (result.0.map ≡ map) × (ledger_of result.0 ≡ ledger (M.SiteMap.meaning map) (calls_of calls.now (length rows.old))) × AllAnswered (M.SiteMap.meaning map) (length rows.old) (calls_of calls.now (length rows.old)) answers.new }
    ensures second { (result.1.map ≡ other) × (ledger_of result.1 ≡ ledger (N.SiteMap.meaning other) (calls_of calls.now (length rows.old))) × AllAnswered (N.SiteMap.meaning other) (length rows.old) (calls_of calls.now (length rows.old)) others.new }
    ensures rows { lines rows.new ≡ rows_left (N.SiteMap.meaning other) (calls_of calls.now (length rows.old)) (rows_left (M.SiteMap.meaning map) (calls_of calls.now (length rows.old)) (lines rows.old)) }
    ensures past { (drop (length calls.now) answers.new ≡ drop (length calls.now) answers.old) × (drop (length calls.now) others.new ≡ drop (length calls.now) others.old) }
    ensures ledgers { M.SiteMap.meaning map ≡ N.SiteMap.meaning other → ledger_of result.0 ≡ ledger_of result.1 }
    ensures alike { M.SiteMap.meaning map ≡ N.SiteMap.meaning other → Alike (length calls.now) answers.new others.new }
{
    let first = run(map, calls, rows, answers);
    let second = run(other, calls, rows, others);
    (first, second)
}

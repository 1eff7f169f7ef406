//! An account that two passes pay into: version n is the sum after the first n payments.
ghost use Rattle.std.specs.Prelude.{◌≡◌, ◌+◌, ◌<◌, None};
ghost use Rattle.cell_tests.specs.Prelude.{IsPartOf, CanPublish, Pays, Published};

use shared_cells::{
    HistoryLaw, JoinedSeat, NewPassSeat, NewTurnSeat, Opening, PassSeat, Payload, SeatNote, Shared,
    TurnSeat,
};
use std::marker::Brand;
use std::test::Fail;
use std::thread::{Threads, join};

/// A version is a sum, an entry adds to it, and no version has cells.
struct Sums;

impl HistoryLaw<u64, u64> for Sums {
    ghost use Rattle.std.specs.Prelude.{◌≡◌, ◌+◌, ◌≤◌, []};

    ghost applied = { λ sum paid. sum + paid };

    ghost lawful = { λ first sum. first ≤ sum };

    ghost permitted = { λ paid. Unit {0} };

    ghost stands = { λ image root sum. image ≡ [] };
}

/// The account opens with ten.
struct Ten;

impl Opening<u64> for Ten {
    ghost use Rattle.std.specs.Prelude.{Some, []};

    ghost version = { Some 10 };

    ghost image = { [] };
}

type Account = Shared<u64, u64, Sums>;

/// Two passes learn of the opening, each in a thread of its own.
fn learn_beside<R: Threads + Sync>(
    rt: &R,
    account: &Account,
    first: (NewPassSeat<u64, u64>, SeatNote<u64, u64>),
    second: (NewPassSeat<u64, u64>, SeatNote<u64, u64>),
) -> (PassSeat<u64, u64>, PassSeat<u64, u64>)
    requires first { (first.0.place.table_id ≡ account.now.table.shared.table_id) × (first.1.place.table_id ≡ account.now.table.shared.table_id) }
    requires second { (second.0.place.table_id ≡ account.now.table.shared.table_id) × (second.1.place.table_id ≡ account.now.table.shared.table_id) }
    ensures { (result.0.place.table_id ≡ account.now.table.shared.table_id) × (result.1.place.table_id ≡ account.now.table.shared.table_id) }
{
    let (pass, note) = first;
    let (other, message) = second;
    join(
        rt,
        move || -> PassSeat<u64, u64>
            requires { (pass.place.table_id ≡ account.now.table.shared.table_id) × (note.place.table_id ≡ account.now.table.shared.table_id) }
            ensures { result.place.table_id ≡ account.entry.now.table.shared.table_id }
        { pass.learn(account, note) },
        move || -> PassSeat<u64, u64>
            requires { (other.place.table_id ≡ account.now.table.shared.table_id) × (message.place.table_id ≡ account.now.table.shared.table_id) }
            ensures { result.place.table_id ≡ account.entry.now.table.shared.table_id }
        { other.learn(account, message) },
    )
}

/// The account is open, and both passes have learnt of that.
fn open<R: Threads + Sync>(
    rt: &R,
    account: &Account,
    turn: NewTurnSeat<u64, u64>,
    first: NewPassSeat<u64, u64>,
    second: NewPassSeat<u64, u64>,
) -> (TurnSeat<u64, u64>, PassSeat<u64, u64>, PassSeat<u64, u64>)
    requires turn { turn.place.table_id ≡ account.now.table.shared.table_id }
    requires passes { (first.place.table_id ≡ account.now.table.shared.table_id) × (second.place.table_id ≡ account.now.table.shared.table_id) }
    ensures version { result.0.version ≡ 0 }
    ensures turn { result.0.place.table_id ≡ account.now.table.shared.table_id }
    ensures passes { (result.1.place.table_id ≡ account.now.table.shared.table_id) × (result.2.place.table_id ≡ account.now.table.shared.table_id) }
{
    let mut turn = turn.open::<Sums, Ten>(account, None);
    let note = turn.note(account);
    let message = turn.note(account);
    let (first, second) = learn_beside(rt, account, (first, note), (second, message));
    (turn, first, second)
}

/// Publishes a payment, which the caller picks.
fn publish<L: HistoryLaw<u64, u64>, M: Payload<u64>>(
    account: &Shared<u64, u64, L>,
    seat: &mut JoinedSeat<u64, u64>,
    _amount: u64,
) -> u64
    requires table { seat.old.place.table_id ≡ account.now.table.shared.table_id }
    requires can { CanPublish L.applied L.lawful L.permitted L.stands account.now.table.shared.key seat.old.place.me.0 M.change None M.image }
    ensures table { seat.new.place.table_id ≡ account.now.table.shared.table_id }
    ensures number { (seat.new.number ≡ seat.old.number) × (result ≡ seat.old.version + 1) }
    ensures published { Published seat.old.place.me.0 M.change None M.image seat.new.place.me.0 }
{
    seat.publish::<L, M>(account, None)
}

/// The pass pays this amount, in a transaction of its own: it is what the history then has last. What the pass had seen
/// was no more than the turn had. Tells the current version's word that it found, and the version that it published.
fn pay(
    account: &Account,
    turn: TurnSeat<u64, u64>,
    pass: PassSeat<u64, u64>,
    amount: u64,
) -> (TurnSeat<u64, u64>, PassSeat<u64, u64>, (u64, u64))
    requires tables { (turn.place.table_id ≡ account.now.table.shared.table_id) × (pass.place.table_id ≡ account.now.table.shared.table_id) }
    requires room { turn.version < 1000 }
    ensures version { result.0.version ≡ turn.version + 1 }
    ensures tables { (result.0.place.table_id ≡ account.now.table.shared.table_id) × (result.1.place.table_id ≡ account.now.table.shared.table_id) }
    ensures pays { Pays pass.number amount pass.place.me.0.seen turn.place.me.0.seen result.0.place.me.0.seen }
{
    let mut joined = turn.join(account, pass);
    let word = joined.look(account);
    let version = publish::<Sums, Brand>(account, &mut joined, amount);
    let (turn, pass) = joined.split(account);
    (turn, pass, (word, version))
}

/// The first pass tells the second what it has seen.
fn tell(account: &Account, first: &mut PassSeat<u64, u64>, second: &mut PassSeat<u64, u64>)
    requires { (first.old.place.table_id ≡ account.now.table.shared.table_id) × (second.old.place.table_id ≡ account.now.table.shared.table_id) }
    ensures { IsPartOf second.new.place.me.0.seen first.old.place.me.0.seen }
{
    let note = first.note(account);
    second.learn(account, note);
}

#[test]
fn two_passes_publish_in_turn(rt: HostRuntime) -> Result<(), Fail> {
    let (account, mut seats, turn) = Account::new(rt.alloc(), 1, 2)?;
    let second = seats.pop().ok_or("no seat")?;
    let first = seats.pop().ok_or("no seat")?;
    let (mut turn, mut next, mut other) = open(&rt, &account, turn, first, second);
    // The word of CUR is the version times 2^24, plus FFFFFD for no root.
    for want in [(0x00ff_fffd, 1), (0x01ff_fffd, 2), (0x02ff_fffd, 3)] {
        let (after, pass, paid) = pay(&account, turn, next, want.1);
        assert_eq!(rt; paid, want);
        turn = after;
        next = other;
        other = pass;
    }
    tell(&account, &mut other, &mut next);
    assert!(rt; next.number == 1 && other.number == 0 && turn.version == 3);
    Ok(())
}

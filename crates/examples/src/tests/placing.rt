use crate::tests::owner::Owner;
use gates::fault::OrderFault;
use gates::gates::Gates;
use gates::side::Side;
use lattice::board::Board;
use lattice::call::Call;
use lattice::condition::{Condition, Reply};
use lattice::lent::Lent;
use lattice::pair::Pair;
use lattice::play::play;
use lattice::vector::Vector;
use lattice::verdict::{Answer, Verdict};
use refusal::{Layer, Refusal, Rule};
use std::marker::PhantomData;
use std::test::Fail;

// Two vans with these orders; gate 0 likes van 1 best, gate 1 van 0.
fn depot(first: &[u8], second: &[u8]) -> Result<Gates, OrderFault> {
    let mut gates = Gates::new(2).ok_or(OrderFault::Row)?;
    gates.put(Side::Vans, 0, first)?;
    gates.put(Side::Vans, 1, second)?;
    gates.put(Side::Gates, 0, &[1, 0])?;
    gates.put(Side::Gates, 1, &[0, 1])?;
    Ok(gates)
}

fn shows(board: &Board, verdict: Verdict, count: u32, first: u32, second: u32) -> bool {
    let reading = board.read();
    reading.verdict == verdict
        && reading.count == count
        && reading.vector.heights().starts_with(&[first, second])
}

#[test]
fn both_like_gate_0(rt: HostRuntime) -> Result<(), Fail> {
    let gates = depot(&[0, 1], &[0, 1])?;
    let mut board = Board::new();
    assert!(rt; board.run(&gates, 0) == Answer::Pending);
    assert!(rt; shows(&board, Verdict::Open, 0, 0, 0));
    assert!(rt; board.run(&gates, 1) == Answer::Found);
    assert!(rt; shows(&board, Verdict::Found, 1, 1, 0));
    let mut shut = Board::new();
    assert!(rt; shut.ceiling(0, 0).is_ok());
    assert!(rt; shut.run(&gates, 0) == Answer::None);
    assert!(rt; shows(&shut, Verdict::None, 0, 0, 0));
    Ok(())
}

#[test]
fn each_likes_another(rt: HostRuntime) -> Result<(), Fail> {
    let gates = depot(&[0, 1], &[1, 0])?;
    let calls = [
        Call::Run(9),
        Call::Read,
        Call::Floor(0, 1),
        Call::Run(9),
        Call::Floor(0, 2),
        Call::Run(9),
    ];
    assert!(rt; shows(&play(&gates, &calls[0..1]), Verdict::Found, 0, 0, 0));
    assert!(rt; shows(&play(&gates, &calls[0..3]), Verdict::Open, 0, 1, 0));
    assert!(rt; shows(&play(&gates, &calls[0..4]), Verdict::Found, 1, 1, 1));
    assert!(rt; shows(&play(&gates, &calls), Verdict::None, 1, 2, 1));
    Ok(())
}

// The refusal of a place by the board.
fn refusal(rule: Rule, place: usize) -> Refusal {
    Refusal {
        rule,
        position: place,
        layer: Layer::Board,
    }
}

#[test]
fn refusals_change_nothing(rt: HostRuntime) {
    let mut board = Board::new();
    let no_place = refusal(Rule::Place, 40);
    let too_high = refusal(Rule::Height, 31);
    assert_eq!(rt; no_place.number(), 13);
    assert_eq!(rt; too_high.number(), 14);
    assert!(rt; board.floor(40, 2_000_000) == Err(no_place));
    assert!(rt; board.ceiling(40, 0) == Err(no_place));
    assert!(rt; board.floor(31, 1_000_001) == Err(too_high));
    assert!(rt; board.ceiling(31, 1_000_001) == Err(too_high));
    assert!(rt; shows(&board, Verdict::Open, 0, 0, 0));
    assert!(rt; board.floor(31, 1_000_000).is_ok());
    assert!(rt; board.read().vector.height(31) == Ok(1_000_000));
    assert!(rt; board.read().vector.height(32) == Err(refusal(Rule::Place, 32)));
}

#[test]
fn orders_are_whole_or_refused(rt: HostRuntime) -> Result<(), Fail> {
    assert!(rt; Gates::new(17).is_none());
    let mut gates = Gates::new(3).ok_or("refused")?;
    assert!(rt; gates.put(Side::Vans, 1, &[2, 0, 1]).is_ok());
    for order in [&[2, 0, 2][..], &[2, 0, 3], &[2, 0]] {
        assert!(rt; gates.put(Side::Vans, 1, order) == Err(OrderFault::Order));
    }
    assert!(rt; gates.put(Side::Gates, 3, &[2, 0, 1]) == Err(OrderFault::Row));
    assert!(rt;
        gates.gate_at(1, 0) == Some(2)
            && gates.gate_at(1, 3).is_none()
            && gates.gate_at(3, 0).is_none()
    );
    Ok(())
}

// The vector with these heights at places 0 and 1.
fn at(first: u32, second: u32) -> Result<Vector, Refusal> {
    let mut heights = [0; 32];
    heights[0] = first;
    heights[1] = second;
    Vector::new(heights)
}

#[test]
fn a_rival_that_passed_still_counts(rt: HostRuntime) -> Result<(), Fail> {
    let gates = depot(&[0, 1], &[0, 1])?;
    let passed = at(0, 1)?;
    let past = at(2, 1)?;
    assert!(rt; gates.probe(&passed) == Reply::Lift((0, 1)));
    assert!(rt; gates.probe(&past) == Reply::Never);
    Ok(())
}

// The reply of the pair of two conditions that are lent.
fn probe_both(first: &Gates, second: &Gates, v: &Vector) -> Reply {
    let pair = Pair { first, second };
    pair.probe(v)
}

#[test]
fn pairs_and_lent_conditions(rt: HostRuntime) -> Result<(), Fail> {
    let gates = depot(&[0, 1], &[0, 1])?;
    let blank = Gates::new(0).ok_or("refused")?;
    let start = at(0, 0)?;
    assert!(rt; probe_both(&blank, &blank, &start) == Reply::Holds);
    assert!(rt; probe_both(&blank, &gates, &start) == Reply::Lift((0, 1)));
    assert!(rt; probe_both(&gates, &blank, &start) == Reply::Lift((0, 1)));
    let owned = Lent {
        lender: Owner { content: gates },
        of: PhantomData::<Gates>,
    };
    assert!(rt; owned.probe(&start) == Reply::Lift((0, 1)));
    Ok(())
}

#[test]
fn a_vector_is_within_bounds(rt: HostRuntime) {
    assert!(rt; at(0, 1_000_000).is_ok());
    assert!(rt; at(0, 1_000_001).err() == Some(refusal(Rule::Height, 1)));
}

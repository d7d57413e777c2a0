//! Worked examples of the operators and of the history, for any store.
use avp_lists::{AttrId, Edit, EditFault, List, MAX_PAIRS, Octets, Op, Pair, Store, Value};
use std::alloc::Global;
use std::process::Abort;
use std::test::Fail;

/// A call of a store. Pairs have letters: a digit is a Class of that octet, `a` a Reply-Message.
#[derive(Clone, Copy)]
pub(crate) enum Call {
    /// An edit of the reply.
    Edit(Op, u8),
    /// An edit of the reply that is refused, since the list would be too long.
    Full(Op, u8),
    /// Back, if the answer is to be true.
    Undo(bool),
    /// Ahead, if the answer is to be true.
    Redo(bool),
    Rollback(usize),
    Reserve(usize),
    Settle,
}

/// A call, the place and the steps after it, and the letters of the reply after it.
pub(crate) type Row = (Call, usize, usize, &'static [u8]);

/// What a table shows, and the calls one after another.
pub(crate) type Table = (&'static str, &'static [Row]);

const CLASS: AttrId = AttrId::Plain(25);

const REPLY_MESSAGE: AttrId = AttrId::Plain(18);

/// The pairs that the first tables begin with.
pub(crate) const FOUR_PAIRS: &[u8] = b"1a21";

/// Tables that begin with four pairs.
pub(crate) const OF_FOUR_PAIRS: [Table; 8] = [
    (
        "replaces the first instance in its place",
        &[
            (Call::Edit(Op::Replace, b'9'), 1, 1, b"9a"),
            (Call::Undo(true), 0, 1, b"1a21"),
            (Call::Redo(true), 1, 1, b"9a"),
            (Call::Undo(true), 0, 1, b"1a21"),
            (Call::Undo(false), 0, 1, b"1a21"),
        ],
    ),
    (
        "adds a pair at the head",
        &[
            (Call::Edit(Op::Prepend, b'5'), 1, 1, b"51a21"),
            (Call::Edit(Op::Replace, b'9'), 2, 2, b"9a"),
            (Call::Undo(true), 1, 2, b"51a21"),
            (Call::Undo(true), 0, 2, b"1a21"),
            (Call::Undo(false), 0, 2, b"1a21"),
        ],
    ),
    (
        "adds pairs at both ends, finds the one or the other first, and keeps the state that is left",
        &[
            (Call::Edit(Op::RemoveAll, b'0'), 1, 1, b"a"),
            (Call::Edit(Op::Prepend, b'3'), 2, 2, b"3a"),
            (Call::Edit(Op::Append, b'4'), 3, 3, b"3a4"),
            (Call::Edit(Op::Prepend, b'5'), 4, 4, b"53a4"),
            (Call::Edit(Op::Append, b'5'), 5, 5, b"53a45"),
            (Call::Edit(Op::RemoveEqual, b'5'), 6, 6, b"3a4"),
            (Call::Rollback(5), 7, 7, b"53a45"),
            (Call::Edit(Op::KeepEqual, b'5'), 8, 8, b"5a5"),
            (Call::Edit(Op::Replace, b'6'), 9, 9, b"6a"),
            (Call::Undo(true), 8, 9, b"5a5"),
            (Call::Undo(true), 7, 9, b"53a45"),
            (Call::Undo(true), 6, 9, b"3a4"),
            (Call::Undo(true), 5, 9, b"53a45"),
            (Call::Undo(true), 4, 9, b"53a4"),
            (Call::Undo(true), 3, 9, b"3a4"),
            (Call::Undo(true), 2, 9, b"3a"),
            (Call::Undo(true), 1, 9, b"a"),
            (Call::Undo(true), 0, 9, b"1a21"),
            (Call::Redo(true), 1, 9, b"a"),
            (Call::Redo(true), 2, 9, b"3a"),
            (Call::Redo(true), 3, 9, b"3a4"),
            (Call::Redo(true), 4, 9, b"53a4"),
            (Call::Redo(true), 5, 9, b"53a45"),
            (Call::Redo(true), 6, 9, b"3a4"),
            (Call::Redo(true), 7, 9, b"53a45"),
            (Call::Redo(true), 8, 9, b"5a5"),
            (Call::Settle, 0, 0, b"5a5"),
            (Call::Edit(Op::Prepend, b'7'), 1, 1, b"75a5"),
            (Call::Edit(Op::AddNew, b'8'), 2, 2, b"75a5"),
        ],
    ),
    (
        "removes and keeps equal pairs",
        &[
            (Call::Edit(Op::RemoveEqual, b'1'), 1, 1, b"a2"),
            (Call::Undo(true), 0, 1, b"1a21"),
            (Call::Edit(Op::KeepEqual, b'1'), 1, 1, b"1a1"),
            (Call::Undo(true), 0, 1, b"1a21"),
        ],
    ),
    (
        "removes all instances, and adds no second",
        &[
            (Call::Edit(Op::RemoveAll, b'0'), 1, 1, b"a"),
            (Call::Edit(Op::RemoveAll, b'0'), 2, 2, b"a"),
            (Call::Undo(true), 1, 2, b"a"),
            (Call::Undo(true), 0, 2, b"1a21"),
            (Call::Edit(Op::AddNew, b'7'), 1, 1, b"1a21"),
        ],
    ),
    (
        "rolls back with reserved room, and settles",
        &[
            (Call::Reserve(2), 0, 0, b"1a21"),
            (Call::Edit(Op::Append, b'9'), 1, 1, b"1a219"),
            (Call::Rollback(0), 2, 2, b"1a21"),
            (Call::Undo(true), 1, 2, b"1a219"),
            (Call::Undo(true), 0, 2, b"1a21"),
            (Call::Redo(true), 1, 2, b"1a219"),
            (Call::Redo(true), 2, 2, b"1a21"),
            (Call::Settle, 0, 0, b"1a21"),
            (Call::Undo(false), 0, 0, b"1a21"),
        ],
    ),
    (
        "rolls back without reserved room",
        &[
            (Call::Edit(Op::Append, b'9'), 1, 1, b"1a219"),
            (Call::Rollback(0), 2, 2, b"1a21"),
            (Call::Undo(true), 1, 2, b"1a219"),
            (Call::Undo(true), 0, 2, b"1a21"),
            (Call::Redo(true), 1, 2, b"1a219"),
            (Call::Redo(true), 2, 2, b"1a21"),
        ],
    ),
    (
        "goes back and ahead over rollbacks that branch, edits from the middle, and settles there",
        &[
            (Call::Edit(Op::Append, b'7'), 1, 1, b"1a217"),
            (Call::Edit(Op::RemoveEqual, b'1'), 2, 2, b"a27"),
            (Call::Rollback(1), 3, 3, b"1a217"),
            (Call::Edit(Op::Replace, b'8'), 4, 4, b"8a"),
            (Call::Edit(Op::Append, b'6'), 5, 5, b"8a6"),
            (Call::Rollback(2), 6, 6, b"a27"),
            (Call::Rollback(4), 7, 7, b"8a"),
            (Call::Undo(true), 6, 7, b"a27"),
            (Call::Undo(true), 5, 7, b"8a6"),
            (Call::Undo(true), 4, 7, b"8a"),
            (Call::Undo(true), 3, 7, b"1a217"),
            (Call::Undo(true), 2, 7, b"a27"),
            (Call::Undo(true), 1, 7, b"1a217"),
            (Call::Undo(true), 0, 7, b"1a21"),
            (Call::Undo(false), 0, 7, b"1a21"),
            (Call::Redo(true), 1, 7, b"1a217"),
            (Call::Redo(true), 2, 7, b"a27"),
            (Call::Redo(true), 3, 7, b"1a217"),
            (Call::Redo(true), 4, 7, b"8a"),
            (Call::Redo(true), 5, 7, b"8a6"),
            (Call::Redo(true), 6, 7, b"a27"),
            (Call::Redo(true), 7, 7, b"8a"),
            (Call::Redo(false), 7, 7, b"8a"),
            (Call::Undo(true), 6, 7, b"a27"),
            (Call::Undo(true), 5, 7, b"8a6"),
            (Call::Edit(Op::KeepEqual, b'6'), 6, 6, b"a6"),
            (Call::Undo(true), 5, 6, b"8a6"),
            (Call::Settle, 0, 0, b"8a6"),
            (Call::Edit(Op::AddNew, b'6'), 1, 1, b"8a6"),
            (Call::Rollback(0), 2, 2, b"8a6"),
            (Call::Undo(true), 1, 2, b"8a6"),
        ],
    ),
];

/// A table of four pairs that can be played again and again, since each edit gives up what the undo before it left.
pub(crate) const THERE_AND_BACK: Table = (
    "gives up what an undo left",
    &[
        (Call::Edit(Op::Append, b'9'), 1, 1, b"1a219"),
        (Call::Undo(true), 0, 1, b"1a21"),
    ],
);

/// As many times the same pair as a list may have pairs.
pub(crate) const ONES: &[u8] = &[b'1'; MAX_PAIRS];

/// Tables that begin with a full list.
pub(crate) const OF_FULL_LISTS: [Table; 3] = [
    (
        "refuses a pair past the limit at the head",
        &[
            (Call::Full(Op::Prepend, b'2'), 0, 0, ONES),
            (Call::Edit(Op::RemoveEqual, b'1'), 1, 1, b""),
            (Call::Edit(Op::Prepend, b'2'), 2, 2, b"2"),
        ],
    ),
    (
        "refuses a pair past the limit at the end",
        &[
            (Call::Full(Op::Append, b'2'), 0, 0, ONES),
            (Call::Edit(Op::AddNew, b'2'), 1, 1, ONES),
            (Call::Full(Op::AddNew, b'a'), 1, 1, ONES),
            (Call::Edit(Op::Replace, b'2'), 2, 2, b"2"),
        ],
    ),
    (
        "is full again after an undo",
        &[
            (Call::Edit(Op::Replace, b'2'), 1, 1, b"2"),
            (Call::Undo(true), 0, 1, ONES),
            (Call::Full(Op::Append, b'2'), 0, 1, ONES),
            (Call::Redo(true), 1, 1, b"2"),
        ],
    ),
];

// The pair of a letter.
fn pair_of(alloc: Global, letter: u8) -> Result<Pair, Fail> {
    let is_digit = letter.is_ascii_digit();
    let octet = if is_digit { letter - b'0' } else { letter };
    let octets = Octets::from_slice(alloc, &[octet])?;
    let (id, value) = if is_digit {
        (CLASS, Value::Bytes(octets))
    } else {
        (REPLY_MESSAGE, Value::Text(octets))
    };
    Ok(Pair { id, value })
}

/// The pairs of these letters.
pub(crate) fn pairs_of(alloc: Global, letters: &[u8]) -> Result<Vec<Pair>, Fail> {
    let mut pairs = Vec::new(alloc);
    for letter in letters {
        pairs.push(pair_of(alloc, *letter)?)?;
    }
    Ok(pairs)
}

fn edit<S: Store>(alloc: Global, store: &mut S, op: Op, letter: u8) -> Result<bool, Fail> {
    let pair = pair_of(alloc, letter)?;
    let list = List::Reply;
    match store.edit(Edit { list, op, pair }) {
        Ok(()) => Ok(true),
        Err(EditFault::Full) => Ok(false),
        Err(fault) => Err(fault)?,
    }
}

// Whether the store answers a call as it should.
fn answers<S: Store>(alloc: Global, store: &mut S, call: Call) -> Result<bool, Fail> {
    Ok(match call {
        Call::Edit(op, letter) => edit(alloc, store, op, letter)?,
        Call::Full(op, letter) => !edit(alloc, store, op, letter)?,
        Call::Undo(moves) => store.undo() == moves,
        Call::Redo(moves) => store.redo() == moves,
        Call::Rollback(to) => {
            let is_back = to <= store.place();
            if is_back {
                store.rollback(to)?;
            }
            is_back
        }
        Call::Reserve(room) => {
            store.reserve(room)?;
            store.room() >= room
        }
        Call::Settle => {
            let room = store.room();
            store.settle();
            store.room() >= room
        }
    })
}

// Whether the calls that lend a pair of the reply lend those of this list, and the other lists are empty.
// Far into a full list each of these calls goes a long way.
fn lends<S: Store>(store: &S, reply: &[Pair]) -> bool {
    let is_lent = |(at, pair)| store.pair(List::Reply, at) == Some(pair);
    let first = reply.iter().find(|pair| pair.id == CLASS);
    reply.iter().take(10).enumerate().all(is_lent)
        && store.pair(List::Reply, reply.len()).is_none()
        && store.first(List::Reply, CLASS) == first
        && store.first(List::Control, CLASS).is_none()
        && store.count(List::Reply) == reply.len()
        && store.count(List::Request) == 0
        && store.count(List::Control) == 0
}

/// Makes the calls of a table, and compares what follows each of them.
pub(crate) fn play<S: Store>(
    rt: &impl Abort,
    alloc: Global,
    store: &mut S,
    table: &Table,
) -> Result<(), Fail> {
    let (shown, rows) = table;
    for (at, (call, place, steps, letters)) in rows.iter().enumerate() {
        assert!(rt;
            answers(alloc, store, *call)?,
            "{shown}: answer of call {at}"
        );
        let reply = pairs_of(alloc, letters)?;
        let found = store.list(List::Reply)?;
        assert!(rt;
            found.as_slice() == reply.as_slice(),
            "{shown}: reply after call {at}"
        );
        assert!(rt; lends(store, &reply), "{shown}: pairs lent after call {at}");
        assert_eq!(rt;
            (store.place(), store.steps()),
            (*place, *steps),
            "{shown}: call {at}"
        );
    }
    Ok(())
}

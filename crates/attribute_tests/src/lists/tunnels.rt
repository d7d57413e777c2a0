//! Worked examples of edits and look-ups of the instances with a tag, for any store.
use avp_lists::{
    AttrId, Edit, List, Octets, Op, Pair, Selection, Store, Tagging, Value, beside_tag, tag_of,
};
use std::alloc::Global;
use std::process::Abort;
use std::test::Fail;

const TUNNEL_TYPE: AttrId = AttrId::Plain(64);

const TUNNEL_MEDIUM_TYPE: AttrId = AttrId::Plain(65);

const TUNNEL_PRIVATE_GROUP_ID: AttrId = AttrId::Plain(81);

/// What a tunnel attribute is set to.
#[derive(Clone, Copy, PartialEq)]
pub(crate) enum Word {
    /// Of Tunnel-Type.
    Vlan,
    Gre,
    Esp,
    /// Of Tunnel-Medium-Type.
    Ieee802,
    Ipv4,
    /// A letter of Tunnel-Private-Group-Id.
    Group(u8),
}

/// An attribute with its tag.
pub(crate) type Tunnel = (u8, Word);

/// Which instances are meant: all by their octets, all by what is beside their tags, or those with this tag.
#[derive(Clone, Copy)]
pub(crate) enum Meant {
    All,
    Each,
    Tagged(u8),
}

/// A call of a store.
#[derive(Clone, Copy)]
pub(crate) enum Call {
    /// An edit of the reply.
    Edit(Op, Meant, Tunnel),
    Undo,
    Redo,
    Rollback(usize),
}

/// A call, the place after it, and the reply after it.
pub(crate) type Row = (Call, usize, &'static [Tunnel]);

/// What a table shows, the reply that it begins with, and the calls one after another.
pub(crate) type Table = (&'static str, &'static [Tunnel], &'static [Row]);

/// Edits of tunnel attributes.
pub(crate) const TUNNELS: [Table; 6] = [
    (
        "sets one tag's instance, and leaves the other's",
        &[],
        &[
            (
                Call::Edit(Op::Replace, Meant::Tagged(1), (1, Word::Vlan)),
                1,
                &[(1, Word::Vlan)],
            ),
            (
                Call::Edit(Op::Replace, Meant::Tagged(2), (2, Word::Gre)),
                2,
                &[(1, Word::Vlan), (2, Word::Gre)],
            ),
            (
                Call::Edit(Op::Replace, Meant::Tagged(1), (1, Word::Esp)),
                3,
                &[(1, Word::Esp), (2, Word::Gre)],
            ),
            (Call::Undo, 2, &[(1, Word::Vlan), (2, Word::Gre)]),
            (Call::Redo, 3, &[(1, Word::Esp), (2, Word::Gre)]),
            (Call::Rollback(1), 4, &[(1, Word::Vlan)]),
            (Call::Undo, 3, &[(1, Word::Esp), (2, Word::Gre)]),
        ],
    ),
    (
        "removes the value of one tag, of each, and of none by its octets",
        &[
            (1, Word::Ieee802),
            (2, Word::Ieee802),
            (3, Word::Ipv4),
            (1, Word::Vlan),
        ],
        &[
            (
                Call::Edit(Op::RemoveEqual, Meant::Tagged(1), (1, Word::Ieee802)),
                1,
                &[(2, Word::Ieee802), (3, Word::Ipv4), (1, Word::Vlan)],
            ),
            (
                Call::Rollback(0),
                2,
                &[
                    (1, Word::Ieee802),
                    (2, Word::Ieee802),
                    (3, Word::Ipv4),
                    (1, Word::Vlan),
                ],
            ),
            (
                Call::Edit(Op::RemoveEqual, Meant::All, (0, Word::Ieee802)),
                3,
                &[
                    (1, Word::Ieee802),
                    (2, Word::Ieee802),
                    (3, Word::Ipv4),
                    (1, Word::Vlan),
                ],
            ),
            (
                Call::Edit(Op::RemoveEqual, Meant::Each, (0, Word::Ieee802)),
                4,
                &[(3, Word::Ipv4), (1, Word::Vlan)],
            ),
        ],
    ),
    (
        "removes the instances of one tag, and of each",
        &[(1, Word::Vlan), (2, Word::Gre), (2, Word::Ipv4)],
        &[
            (
                Call::Edit(Op::RemoveAll, Meant::Tagged(2), (2, Word::Vlan)),
                1,
                &[(1, Word::Vlan), (2, Word::Ipv4)],
            ),
            (
                Call::Undo,
                0,
                &[(1, Word::Vlan), (2, Word::Gre), (2, Word::Ipv4)],
            ),
            (
                Call::Edit(Op::RemoveAll, Meant::Each, (0, Word::Vlan)),
                1,
                &[(2, Word::Ipv4)],
            ),
        ],
    ),
    (
        "adds where no instance with the tag is, and without one where none is",
        &[(2, Word::Gre)],
        &[
            (
                Call::Edit(Op::AddNew, Meant::Each, (0, Word::Vlan)),
                1,
                &[(2, Word::Gre)],
            ),
            (
                Call::Edit(Op::AddNew, Meant::Tagged(2), (2, Word::Vlan)),
                2,
                &[(2, Word::Gre)],
            ),
            (
                Call::Edit(Op::AddNew, Meant::Tagged(1), (1, Word::Vlan)),
                3,
                &[(2, Word::Gre), (1, Word::Vlan)],
            ),
        ],
    ),
    (
        "keeps the value of one tag, and of each",
        &[(1, Word::Vlan), (2, Word::Gre), (2, Word::Vlan)],
        &[
            (
                Call::Edit(Op::KeepEqual, Meant::Tagged(2), (2, Word::Gre)),
                1,
                &[(1, Word::Vlan), (2, Word::Gre)],
            ),
            (
                Call::Undo,
                0,
                &[(1, Word::Vlan), (2, Word::Gre), (2, Word::Vlan)],
            ),
            (
                Call::Edit(Op::KeepEqual, Meant::Each, (0, Word::Vlan)),
                1,
                &[(1, Word::Vlan), (2, Word::Vlan)],
            ),
        ],
    ),
    (
        "takes a text without a tag for one with the tag 0",
        &[
            (0, Word::Group(b'a')),
            (1, Word::Group(b'a')),
            (2, Word::Group(b'b')),
        ],
        &[
            (
                Call::Edit(Op::Replace, Meant::Tagged(0), (0, Word::Group(b'c'))),
                1,
                &[
                    (0, Word::Group(b'c')),
                    (1, Word::Group(b'a')),
                    (2, Word::Group(b'b')),
                ],
            ),
            (
                Call::Undo,
                0,
                &[
                    (0, Word::Group(b'a')),
                    (1, Word::Group(b'a')),
                    (2, Word::Group(b'b')),
                ],
            ),
            (
                Call::Edit(Op::RemoveEqual, Meant::Each, (3, Word::Group(b'a'))),
                1,
                &[(2, Word::Group(b'b'))],
            ),
            (
                Call::Edit(Op::Replace, Meant::Each, (1, Word::Group(b'd'))),
                2,
                &[(1, Word::Group(b'd'))],
            ),
        ],
    ),
];

/// The reply that is looked at.
pub(crate) const LOOKED_AT: &[Tunnel] = &[
    (2, Word::Gre),
    (1, Word::Vlan),
    (1, Word::Esp),
    (0, Word::Group(b'a')),
];

/// An attribute of the id, which instances are meant, and the first of them.
pub(crate) const LOOK_UPS: [(Word, Meant, Option<Tunnel>); 7] = [
    (Word::Vlan, Meant::All, Some((2, Word::Gre))),
    (Word::Vlan, Meant::Each, Some((2, Word::Gre))),
    (Word::Vlan, Meant::Tagged(1), Some((1, Word::Vlan))),
    (Word::Vlan, Meant::Tagged(2), Some((2, Word::Gre))),
    (Word::Vlan, Meant::Tagged(0), None),
    (Word::Ipv4, Meant::Tagged(1), None),
    (
        Word::Group(b'b'),
        Meant::Tagged(0),
        Some((0, Word::Group(b'a'))),
    ),
];

fn id_of(word: Word) -> AttrId {
    match word {
        Word::Vlan | Word::Gre | Word::Esp => TUNNEL_TYPE,
        Word::Ieee802 | Word::Ipv4 => TUNNEL_MEDIUM_TYPE,
        Word::Group(_) => TUNNEL_PRIVATE_GROUP_ID,
    }
}

fn tagging_of(word: Word) -> Tagging {
    match word {
        Word::Group(_) => Tagging::Text,
        _ => Tagging::Number,
    }
}

fn selection_of(meant: Meant, word: Word) -> Selection {
    match meant {
        Meant::All => Selection::All,
        Meant::Each => Selection::EachTag(tagging_of(word)),
        Meant::Tagged(tag) => Selection::Tag(tagging_of(word), tag),
    }
}

// The octets of an attribute: a text has none for the tag 0.
fn octets_of(alloc: Global, (tag, word): Tunnel) -> Result<Octets, Fail> {
    let number = match word {
        Word::Vlan => 13,
        Word::Gre => 10,
        Word::Esp => 9,
        Word::Ieee802 => 6,
        Word::Ipv4 => 1,
        Word::Group(letter) if tag == 0 => return Ok(Octets::from_slice(alloc, &[letter])?),
        Word::Group(letter) => return Ok(Octets::from_slice(alloc, &[tag, letter])?),
    };
    Ok(Octets::from_slice(alloc, &[tag, 0, 0, number])?)
}

fn pair_of(alloc: Global, tunnel: Tunnel) -> Result<Pair, Fail> {
    let value = Value::Bytes(octets_of(alloc, tunnel)?);
    Ok(Pair {
        id: id_of(tunnel.1),
        value,
    })
}

/// The pairs of these attributes.
pub(crate) fn tunnels_of(alloc: Global, tunnels: &[Tunnel]) -> Result<Vec<Pair>, Fail> {
    let mut pairs = Vec::new(alloc);
    for tunnel in tunnels {
        pairs.push(pair_of(alloc, *tunnel)?)?;
    }
    Ok(pairs)
}

fn make<S: Store>(alloc: Global, store: &mut S, call: Call) -> Result<bool, Fail> {
    match call {
        Call::Edit(op, meant, tunnel) => {
            let pair = pair_of(alloc, tunnel)?;
            let list = List::Reply;
            store.edit_selected(Edit { list, op, pair }, selection_of(meant, tunnel.1))?;
        }
        Call::Undo => return Ok(store.undo()),
        Call::Redo => return Ok(store.redo()),
        Call::Rollback(to) if to > store.place() => return Ok(false),
        Call::Rollback(to) => store.rollback(to)?,
    }
    Ok(true)
}

/// Makes the calls of a table, and compares what follows each of them.
pub(crate) fn play_tunnels<S: Store>(
    rt: &impl Abort,
    alloc: Global,
    store: &mut S,
    table: &Table,
) -> Result<(), Fail> {
    let (shown, _, rows) = table;
    for (at, (call, place, reply)) in rows.iter().enumerate() {
        assert!(rt; make(alloc, store, *call)?, "{shown}: answer of call {at}");
        assert_eq!(rt; store.place(), *place);
        let wanted = tunnels_of(alloc, reply)?;
        let found = store.list(List::Reply)?;
        assert!(rt;
            found.as_slice() == wanted.as_slice(),
            "{shown}: reply after call {at}"
        );
    }
    Ok(())
}

// Whether the pair has the tag and the octets beside it of this attribute.
fn is_tunnel(pair: &Pair, tunnel: Tunnel, wanted: &Pair) -> bool {
    let tagging = tagging_of(tunnel.1);
    *pair == *wanted
        && tag_of(tagging, &pair.value) == Some(tunnel.0)
        && beside_tag(tagging, &pair.value) == beside_tag(tagging, &wanted.value)
}

/// Makes a look-up, and compares what it finds.
pub(crate) fn look_up<S: Store>(
    rt: &impl Abort,
    alloc: Global,
    store: &S,
    (word, meant, wanted): (Word, Meant, Option<Tunnel>),
) -> Result<(), Fail> {
    let found = store.first_selected(List::Reply, id_of(word), selection_of(meant, word));
    match (found, wanted) {
        (Some(pair), Some(tunnel)) => {
            let wanted = pair_of(alloc, tunnel)?;
            assert!(rt; is_tunnel(pair, tunnel, &wanted));
        }
        (found, wanted) => assert!(rt; found.is_none() && wanted.is_none()),
    }
    Ok(())
}

//! What update lines set their attributes to.

ghost use Rattle.std.specs.Prelude.{◌≡◌, ◌++◌, map, IsTrue, IfOk, IfSome, OnOk, Some};
ghost use Rattle.avp_lists.specs.History.{present};
ghost use Rattle.avp_lists.specs.Meets.{Meets};
ghost use Rattle.avp_dict.specs.Limits.{fits, is_known, is_typed};
ghost use Rattle.avp_dict.specs.Octets.{octets, read_value};
ghost use Rattle.avp_dict.specs.Spellings.{unless_long, value_spelled};
ghost use Rattle.avp_unlang.specs.Captures.{captured, filled, filled_part, filled_source};
ghost use Rattle.avp_unlang.specs.Resolutions.{StateFits, given, instance_value, is_memory, line_suits, literal_fits, meaning_put, pair_of, pair_put, part_text, parts_text, read_by_type, resolution, retagged, source_value, tagged_value, unresolved, wider_value};
ghost use Rattle.avp_unlang.specs.declared.meaning.resolving.Unresolved.TheVariants as why;

use crate::meaning::captured::Captured;
use crate::tree::{Line, Part, Source};
use avp_dict::{Dictionary, Form, Kind, Named, ValueFault};
use avp_forms::{FormValue, Profile, Target, text_put, value_written};
use avp_lists::{AttrId, Octets, Pair, Store, Value};
use std::alloc::{AllocError, Global};
use thiserror::Error;

/// Why an update line has no pair.
#[derive(Clone, Copy, Debug, PartialEq, Eq, Error)]
pub enum Unresolved {
    /// A reference to an attribute that has no instance.
    #[error("the source is absent")]
    Absent,
    /// Octets or a text that the attribute's type does not read.
    #[error("not a value")]
    NotValue,
    /// More octets than the attribute may have, or a hidden value that ends in NUL.
    #[error("too long")]
    TooLong,
    #[error("out of memory")]
    Memory,
}

impl From<AllocError> for Unresolved {
    ghost from_gives = { λ _ fault. fault ≡ why.Memory };

    fn from(_: AllocError) -> Unresolved {
        Unresolved::Memory
    }
}

impl From<ValueFault> for Unresolved {
    ghost from_gives = { λ fault made. made ≡ unresolved fault };

    fn from(fault: ValueFault) -> Unresolved {
        match fault {
            ValueFault::NotWritable | ValueFault::NotValue => Unresolved::NotValue,
            ValueFault::TooLong => Unresolved::TooLong,
            ValueFault::Memory => Unresolved::Memory,
        }
    }
}

// Adds what is put in for an instance.
fn push_instance(text: &mut Vec<u8>, dictionary: &Dictionary, pair: &Pair) -> Result<(), AllocError>
    requires { IsTrue (fits pair.now dictionary.now) }
    ensures { OnOk result (text.new.items ≡ text.old.items ++ pair_put dictionary.now pair.now) }
{
    match &pair.value {
        Value::Text(octets) => text.extend_from_slice(octets.as_slice()),
        value => {
            let printed = dictionary.text_of_value(*text.allocator(), pair.id, value)?;
            text.extend_from_slice(&printed)
        }
    }
}

// Adds what is put in for an instance in a wider policy.
fn push_meaning(text: &mut Vec<u8>, dictionary: &Dictionary, pair: &Pair) -> Result<(), AllocError>
    requires { IsTrue (fits pair.now dictionary.now) }
    ensures { OnOk result (text.new.items
        ≡ text.old.items ++ meaning_put dictionary.now pair.now) }
{
    let alloc = *text.allocator();
    let put = text_put(alloc, dictionary, Profile::Wider, pair.id, &pair.value)?;
    text.extend_from_slice(&put)
}

// Adds the text of a part.
fn push_part<S: Store>(
    text: &mut Vec<u8>,
    dictionary: &Dictionary,
    part: &Part,
    store: &S,
    captured: &Captured,
) -> Result<(), AllocError>
    requires { StateFits dictionary.now (present (S.history store.now)) }
    ensures { OnOk result (text.new.items ≡ text.old.items ++ part_text dictionary.now
        (present (S.history store.now)) (filled_part captured.now.captures part.now)) }
{
    match part {
        Part::Text(octets) => text.extend_from_slice(octets.as_slice()),
        Part::Instance(list, id) => match store.first(*list, *id) {
            Some(pair) => push_instance(text, dictionary, pair),
            None => Ok(()),
        },
        Part::Meant(list, id, selection) => match store.first_selected(*list, *id, *selection) {
            Some(pair) => push_meaning(text, dictionary, pair),
            None => Ok(()),
        },
        Part::Capture(group) => text.extend_from_slice(captured.group(*group)),
    }
}

fn parts_text<S: Store>(
    alloc: Global,
    dictionary: &Dictionary,
    parts: &[Part],
    store: &S,
    captured: &Captured,
) -> Result<Vec<u8>, AllocError>
    requires { StateFits dictionary.now (present (S.history store.now)) }
    ensures { IfOk result (λ text. text.items ≡ parts_text dictionary.now
        (present (S.history store.now)) (map (filled_part captured.now.captures) parts.now)) }
{
    let mut text = Vec::new(alloc);
    for part in parts {
        push_part(&mut text, dictionary, part, store, captured)?;
    }
    Ok(text)
}

// The value of the id's type with these octets, if there is one.
fn read_value(
    alloc: Global,
    dictionary: &Dictionary,
    id: AttrId,
    octets: &[u8],
) -> Result<Option<Value>, AllocError>
    ensures read { IfOk result (λ value. value ≡ read_value id octets.now dictionary.now) }
    ensures typed { IfOk result (λ value. IfSome value
        (λ v. IsTrue (is_typed id v dictionary.now))) }
{
    match dictionary.value_of_bytes(alloc, id, octets)? {
        Value::Raw(_) => Ok(None),
        value => Ok(Some(value)),
    }
}

fn read_by_type(
    alloc: Global,
    dictionary: &Dictionary,
    id: AttrId,
    octets: &[u8],
) -> Result<Option<Value>, AllocError>
    ensures read { IfOk result (λ value. value ≡ read_by_type id octets.now dictionary.now) }
    ensures typed { IfOk result (λ value. IfSome value
        (λ v. IsTrue (is_typed id v dictionary.now))) }
{
    match dictionary.by_id(id) {
        None => Ok(Some(Value::Raw(Octets::from_slice(alloc, octets)?))),
        Some(entry) => match entry.kind {
            Kind::Text => Ok(Some(Value::Text(Octets::from_slice(alloc, octets)?))),
            Kind::Bytes => Ok(Some(Value::Bytes(Octets::from_slice(alloc, octets)?))),
            Kind::Addr
            | Kind::Ether
            | Kind::Byte
            | Kind::Short
            | Kind::Integer
            | Kind::Date
            | Kind::Integer64
            | Kind::Signed => read_value(alloc, dictionary, id, octets),
        },
    }
}

// The value, unless it is longer than the attribute may have.
#[tactic(auto, unfolding(avp_dict::specs::Limits::fits))]
fn unless_long(
    dictionary: &Dictionary,
    id: AttrId,
    value: Option<Value>,
) -> Result<Value, Unresolved>
    requires known { IsTrue (is_known id dictionary.now) }
    requires typed { IfSome value (λ v. IsTrue (is_typed id v dictionary.now)) }
    ensures given { result ≡ given (unless_long id dictionary.now value) }
    ensures fits { IfOk result (λ v. IsTrue (fits (pair_of id v) dictionary.now)) }
{
    match value {
        None => Err(Unresolved::NotValue),
        Some(value) => {
            let pair = Pair { id, value };
            if dictionary.fits(&pair) {
                Ok(pair.value)
            } else {
                Err(Unresolved::TooLong)
            }
        }
    }
}

// The value of an id with the octets of this instance.
fn instance_value(
    alloc: Global,
    dictionary: &Dictionary,
    id: AttrId,
    pair: &Pair,
) -> Result<Value, Unresolved>
    requires known { IsTrue (is_known id dictionary.now) }
    requires fits { IsTrue (fits pair.now dictionary.now) }
    ensures resolves { Meets is_memory result (instance_value dictionary.now id (Some pair.now)) }
    ensures fits { IfOk result (λ v. IsTrue (fits (pair_of id v) dictionary.now)) }
{
    let octets = dictionary.bytes_of_value(alloc, pair.id, &pair.value)?;
    let value = read_by_type(alloc, dictionary, id, &octets)?;
    unless_long(dictionary, id, value)
}

// The octets with this tag in place of their own, where they are a value of a form with tags.
fn retagged(alloc: Global, form: Form, tag: u8, octets: Vec<u8>) -> Result<Vec<u8>, AllocError>
    ensures { IfOk result (λ os. os.items ≡ retagged form tag octets.items) }
{
    match FormValue::of_octets(alloc, form, &octets)? {
        Some(value) => value.with_tag(tag).to_octets(alloc),
        None => Ok(octets),
    }
}

// The value of an id with the octets of this instance, with a tag.
fn tagged_value(
    alloc: Global,
    dictionary: &Dictionary,
    id: AttrId,
    form: Form,
    tag: u8,
    pair: &Pair,
) -> Result<Value, Unresolved>
    requires known { IsTrue (is_known id dictionary.now) }
    requires fits { IsTrue (fits pair.now dictionary.now) }
    ensures resolves { Meets is_memory result
        (tagged_value dictionary.now id form tag (Some pair.now)) }
    ensures fits { IfOk result (λ v. IsTrue (fits (pair_of id v) dictionary.now)) }
{
    let octets = dictionary.bytes_of_value(alloc, pair.id, &pair.value)?;
    let octets = retagged(alloc, form, tag, octets)?;
    let value = read_by_type(alloc, dictionary, id, &octets)?;
    unless_long(dictionary, id, value)
}

// The value that a text of a wider policy stands for.
fn wider_value(
    alloc: Global,
    dictionary: &Dictionary,
    target: Target,
    text: &[u8],
) -> Result<Value, Unresolved>
    requires known { IsTrue (is_known target.named.id dictionary.now) }
    ensures resolves { Meets is_memory result (wider_value dictionary.now target text.now) }
    ensures fits { IfOk result (λ v. IsTrue (fits (pair_of target.named.id v) dictionary.now)) }
{
    dictionary.is_sound();
    let value = value_written(alloc, dictionary, Profile::Wider, target, None, text)?;
    Ok(value)
}

// The value that a text of a wider policy with values put in stands for under a name.
fn wider_text_value<S: Store>(
    alloc: Global,
    dictionary: &Dictionary,
    target: Target,
    parts: &[Part],
    store: &S,
    captured: &Captured,
) -> Result<Value, Unresolved>
    requires known { IsTrue (is_known target.named.id dictionary.now) }
    requires fits { StateFits dictionary.now (present (S.history store.now)) }
    ensures resolves { Meets is_memory result (wider_value dictionary.now target
        (parts_text dictionary.now (present (S.history store.now))
        (map (filled_part captured.now.captures) parts.now))) }
    ensures fits { IfOk result (λ v. IsTrue (fits (pair_of target.named.id v) dictionary.now)) }
{
    let text = parts_text(alloc, dictionary, parts, store, captured)?;
    wider_value(alloc, dictionary, target, &text)
}

// The value that a text with values put in stands for under a name.
fn text_value<S: Store>(
    alloc: Global,
    dictionary: &Dictionary,
    name: Named,
    parts: &[Part],
    store: &S,
    captured: &Captured,
) -> Result<Value, Unresolved>
    requires known { IsTrue (is_known name.id dictionary.now) }
    requires fits { StateFits dictionary.now (present (S.history store.now)) }
    ensures resolves { Meets is_memory result (given (value_spelled name
        (parts_text dictionary.now (present (S.history store.now))
        (map (filled_part captured.now.captures) parts.now)) dictionary.now)) }
    ensures fits { IfOk result (λ v. IsTrue (fits (pair_of name.id v) dictionary.now)) }
{
    let text = parts_text(alloc, dictionary, parts, store, captured)?;
    let value = dictionary.value_of_text(alloc, name, &text)?;
    Ok(value)
}

fn source_value<S: Store>(
    alloc: Global,
    dictionary: &Dictionary,
    id: AttrId,
    source: &Source,
    store: &S,
    captured: &Captured,
) -> Result<Value, Unresolved>
    requires known { IsTrue (is_known id dictionary.now) }
    requires literal { IsTrue (literal_fits dictionary.now id source.now) }
    requires fits { StateFits dictionary.now (present (S.history store.now)) }
    ensures resolves { Meets is_memory result
        (source_value dictionary.now (present (S.history store.now)) id
        (filled_source captured.now.captures source.now)) }
    ensures fits { IfOk result (λ v. IsTrue (fits (pair_of id v) dictionary.now)) }
{
    match source {
        Source::Literal(value) => Ok(value.copy(alloc)?),
        Source::Text(raw, parts) => text_value(
            alloc,
            dictionary,
            Named { id, raw: *raw },
            parts.as_slice(),
            store,
            captured,
        ),
        Source::WiderText(raw, tag, parts) => {
            let named = Named { id, raw: *raw };
            let target = Target { named, tag: *tag };
            wider_text_value(alloc, dictionary, target, parts.as_slice(), store, captured)
        }
        Source::Instance(list, other) => match store.first(*list, *other) {
            None => Err(Unresolved::Absent),
            Some(pair) => instance_value(alloc, dictionary, id, pair),
        },
        Source::Tagged(list, other, selection, form, tag) => {
            match store.first_selected(*list, *other, *selection) {
                None => Err(Unresolved::Absent),
                Some(pair) => tagged_value(alloc, dictionary, id, *form, *tag, pair),
            }
        }
        Source::Any => Ok(Value::Raw(Octets::from_vec(Vec::new(alloc)))),
    }
}

/// The pair of an update line in a store's present lists, or why there is none, with what was captured put into its
/// text. `dictionary` is the one by which the line was read.
#[tactic(auto, unfolding(crate::specs::Resolutions::resolution, crate::specs::Resolutions::line_suits))]
pub fn resolve_by<S: Store>(
    alloc: Global,
    dictionary: &Dictionary,
    line: &Line,
    store: &S,
    captured: &Captured,
) -> Result<Pair, Unresolved>
    requires line { IsTrue (line_suits dictionary.now line.now) }
    requires store { StateFits dictionary.now (present (S.history store.now)) }
    ensures resolves { Meets is_memory result (resolution dictionary.now
        (filled captured.now.captures line.now) (present (S.history store.now))) }
    ensures fits { IfOk result (λ pair. IsTrue (fits pair dictionary.now)) }
{
    let value = source_value(alloc, dictionary, line.id, &line.source, store, captured)?;
    Ok(Pair { id: line.id, value })
}

/// The pair of an update line in a store's present lists where nothing was captured, or why there is none. `dictionary`
/// is the one by which the line was read.
pub fn resolve<S: Store>(
    alloc: Global,
    dictionary: &Dictionary,
    line: &Line,
    store: &S,
) -> Result<Pair, Unresolved>
    requires line { IsTrue (line_suits dictionary.now line.now) }
    requires store { StateFits dictionary.now (present (S.history store.now)) }
    ensures resolves { Meets is_memory result
        (resolution dictionary.now line.now (present (S.history store.now))) }
    ensures fits { IfOk result (λ pair. IsTrue (fits pair dictionary.now)) }
{
    let captured = Captured::none(alloc);
    resolve_by(alloc, dictionary, line, store, &captured)
}

//! What a line of a file set is read as, by the lines before it.

ghost use Rattle.std.specs.Prelude.{◌≡◌};
ghost use Rattle.avp_lists.specs.Meets.{Meets};
ghost use Rattle.avp_dict.specs.Readings.{plain_line, read_head, read_words, skipped_line, value, value_words};
ghost use Rattle.avp_dict.specs.internal.Agreeing.{IsAgreeing, without_names};
ghost use Rattle.avp_dict.specs.internal.Meanings.{context_view, meaning_view, read_view};
ghost use Rattle.avp_dict.specs.internal.Refused.{is_memory_word};
ghost use Rattle.avp_dict.specs.internal.Views.{views};

use crate::faults::{DictKind, RefusedWord, miscounted};
use crate::file::attributes::read_attribute;
use crate::file::blocks::{begin_tlv, begin_vendor, end_tlv, end_vendor, include};
use crate::file::context::{Context, block_vendor, is_skipping};
use crate::file::keywords::{
    BEGIN_TLV, BEGIN_VENDOR, END_TLV, END_VENDOR, VENDOR, is_attribute_keyword, is_value_keyword,
};
use crate::file::lines::is_include;
use crate::file::meanings::Meaning;
use crate::file::numbers::{GREATEST_VALUE, bounded};
use crate::file::vendors::read_vendor;
use crate::file::words::same_name;
use std::alloc::Global;

fn value_words<'a>(
    attribute: &'a [u8],
    name: &'a [u8],
    number: &[u8],
) -> Result<Meaning<'a>, RefusedWord>
    ensures { Meets is_memory_word (read_view result)
        (value_words attribute.now name.now number.now) }
{
    match bounded(GREATEST_VALUE, number) {
        Ok(number) => Ok(Meaning::Value(attribute, name, number)),
        Err(kind) => Err(kind.at_word(3)),
    }
}

#[tactic(auto, unfolding(crate::specs::Readings::value))]
fn read_value<'a>(words: &[&'a [u8]]) -> Result<Meaning<'a>, RefusedWord>
    ensures { Meets is_memory_word (read_view result) (value (views words.now)) }
{
    match words {
        [attribute, name, number] => value_words(attribute, name, number),
        _ => Err(miscounted(3, words)),
    }
}

fn skip_line<'a>(head: &[u8], words: &[&'a [u8]]) -> Meaning<'a>
    ensures { meaning_view result ≡ skipped_line head.now (views words.now) }
{
    match words {
        [] => Meaning::Skipped,
        [name, ..] => {
            if is_attribute_keyword(head) {
                Meaning::SkippedAttribute(name)
            } else {
                Meaning::Skipped
            }
        }
    }
}

#[tactic(auto, unfolding(crate::specs::Readings::plain_line))]
fn plain_line<'a>(
    alloc: Global,
    before: &Context<'_>,
    block: Option<u32>,
    head: &[u8],
    words: &[&'a [u8]],
) -> Result<Meaning<'a>, RefusedWord>
    requires { IsAgreeing (context_view before.now) }
    ensures { Meets is_memory_word (read_view result)
        (plain_line (without_names (context_view before.now)) block head.now
        (views words.now)) }
{
    if is_attribute_keyword(head) {
        read_attribute(alloc, before, block, words)
    } else if is_value_keyword(head) {
        read_value(words)
    } else if same_name(head, VENDOR) {
        read_vendor(alloc, &before.vendors, words)
    } else {
        Err(DictKind::Unreadable.at_word(0))
    }
}

// The words of a line after the first.
#[tactic(auto, unfolding(crate::specs::Readings::read_head))]
fn read_head<'a>(
    alloc: Global,
    before: &Context<'_>,
    included: Option<usize>,
    depth: usize,
    head: &[u8],
    words: &[&'a [u8]],
) -> Result<Meaning<'a>, RefusedWord>
    requires { IsAgreeing (context_view before.now) }
    ensures { Meets is_memory_word (read_view result)
        (read_head (without_names (context_view before.now)) included depth head.now
        (views words.now)) }
{
    let opened = before.opened.as_slice();
    if is_include(head) {
        include(included, depth, head, words)
    } else if same_name(head, BEGIN_VENDOR) {
        begin_vendor(&before.vendors, opened, words)
    } else if same_name(head, END_VENDOR) {
        end_vendor(opened, words)
    } else if same_name(head, BEGIN_TLV) {
        begin_tlv(words)
    } else if same_name(head, END_TLV) {
        end_tlv(opened, words)
    } else if is_skipping(opened) {
        Ok(skip_line(head, words))
    } else {
        plain_line(alloc, before, block_vendor(opened), head, words)
    }
}

/// What the words of a line are read as, by what the lines before it leave without the names of attributes.
#[tactic(auto, unfolding(crate::specs::Readings::read_words))]
pub(crate) fn read_words<'a>(
    alloc: Global,
    before: &Context<'_>,
    included: Option<usize>,
    depth: usize,
    words: &[&'a [u8]],
) -> Result<Meaning<'a>, RefusedWord>
    requires { IsAgreeing (context_view before.now) }
    ensures { Meets is_memory_word (read_view result)
        (read_words (without_names (context_view before.now)) included depth
        (views words.now)) }
{
    match words {
        [] => Ok(Meaning::Nothing),
        [head, rest @ ..] => read_head(alloc, before, included, depth, head, rest),
    }
}

//! Where the words of a file's lines begin. This is asked of a refused line alone.

ghost use Rattle.std.specs.Prelude.{◌≡◌, ◌≤◌, length};
ghost use Rattle.std.specs.List.{before_first};
ghost use Rattle.avp_dict.specs.Words.{is_hash};
ghost use Rattle.avp_dict.specs.WordPlaces.{after_lines, before_word, from_filled, from_word, word_offset};

use crate::file::lines::split_line;
use crate::file::words::{after_blank, is_blank, without_comment};

fn from_filled(octets: &[u8]) -> &[u8]
    ensures from { result.now ≡ from_filled octets.now }
    ensures within { length result.now ≤ length octets.now }
{
    let mut rest = octets;
    while let [octet, after @ ..] = rest {
        if !is_blank(*octet) {
            return rest;
        }
        rest = after;
    }
    rest
}

fn from_word(word: usize, octets: &[u8]) -> &[u8]
    ensures from { result.now ≡ from_word word octets.now }
    ensures within { length result.now ≤ length octets.now }
{
    let mut rest = octets;
    for _ in 0..word {
        rest = after_blank(from_filled(rest));
    }
    from_filled(rest)
}

fn before_word(word: usize, line: &[u8]) -> usize
    ensures before { result ≡ before_word word line.now }
    ensures within { result ≤ length line.now }
{
    let plain = without_comment(line);
    plain.len() - from_word(word, plain).len()
}

fn after_lines(lines: usize, octets: &[u8]) -> &[u8]
    ensures after { result.now ≡ after_lines lines octets.now }
    ensures within { length result.now ≤ length octets.now }
{
    let mut rest = octets;
    for _ in 0..lines {
        rest = split_line(rest).1;
    }
    rest
}

/// How many octets of a file are before a word of a line.
#[tactic(auto, unfolding(crate::specs::WordPlaces::word_offset))]
pub(crate) fn word_offset(line: usize, word: usize, octets: &[u8]) -> usize
    ensures { result ≡ word_offset line word octets.now }
{
    let rest = after_lines(line.saturating_sub(1), octets);
    octets.len() - rest.len() + before_word(word, split_line(rest).0)
}

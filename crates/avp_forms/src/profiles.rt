//! Profiles of policies and of request lines.

ghost use Rattle.std.specs.Prelude.{◌≡◌, ◌∷◌, [], MatchOption};
ghost use Rattle.std.specs.Option.{option_copied};
ghost use Rattle.avp_forms.specs.Profiles.{comment_of, is_wider_comment, is_wider_line, profile_of, words_between};

use avp_dict::{first_part, is_blank, is_idle_line, next_line, same_name};

/// What a policy's or a request's text may hold.
#[derive(Clone, Copy, Debug, PartialEq, Eq)]
pub enum Profile {
    /// What every text may hold.
    Plain,
    /// Tags, and the texts of values of forms, as well: where the comment
    /// `# profile: wider` stands before the first statement or pair.
    Wider,
}

// The first word, and what follows it.
fn next_word(text: &[u8]) -> Option<(&[u8], &[u8])>
    ensures { MatchOption result (words_between text.now ≡ [])
        (λ x. words_between text.now ≡ x.0.now ∷ words_between x.1.now) }
{
    let mut rest = text;
    while let Some((part, after)) = first_part(rest) {
        if !part.is_empty() {
            return Some((part, after));
        }
        rest = after;
    }
    if rest.is_empty() {
        None
    } else {
        Some((rest, &[]))
    }
}

fn is_wider_comment(comment: &[u8]) -> bool
    ensures { result ≡ is_wider_comment comment.now }
{
    let Some((first, rest)) = next_word(comment) else {
        return false;
    };
    let Some((second, rest)) = next_word(rest) else {
        return false;
    };
    match next_word(rest) {
        None => same_name(first, b"profile:") && same_name(second, b"wider"),
        Some(_) => false,
    }
}

// What follows the `#` of a line that has no more than blanks before it.
fn comment_of(line: &[u8]) -> Option<&[u8]>
    ensures { option_copied result ≡ comment_of line.now }
{
    let mut rest = line;
    while let [first, after @ ..] = rest {
        if *first == b'#' {
            return Some(after);
        }
        if !is_blank(*first) {
            return None;
        }
        rest = after;
    }
    None
}

fn is_wider_line(line: &[u8]) -> bool
    ensures { result ≡ is_wider_line line.now }
{
    match comment_of(line) {
        Some(comment) => is_wider_comment(comment),
        None => false,
    }
}

/// The profile that a text is written in: [`Wider`](Profile::Wider) where a comment of the words `profile:` and `wider`
/// stands alone on a line before the first statement or pair, letters in either case, with blanks as one likes.
///
/// ```rust
/// let wider = profile_of(b"# VLANs of the campus\n\n# profile: wider\nok\n");
/// assert_eq!(rt; wider, Profile::Wider);
/// let plain = profile_of(b"ok\n# profile: wider\n");
/// assert_eq!(rt; plain, Profile::Plain);
/// ```
#[tactic(auto, unfolding(crate::specs::Profiles::profile_of))]
pub fn profile_of(text: &[u8]) -> Profile
    ensures { result ≡ profile_of text.now }
{
    let mut rest = text;
    while let Some((line, after)) = next_line(rest) {
        if is_wider_line(line) {
            return Profile::Wider;
        }
        if !is_idle_line(line) {
            return Profile::Plain;
        }
        rest = after;
    }
    Profile::Plain
}

//! What a run tells, in words.

ghost use Rattle.std.specs.Prelude.{◌≡◌};
ghost use Rattle.std.specs.Option.{option_copied};
ghost use Rattle.radpolicy_common.specs.Words.{reason_text};

/// Why an update line failed, by the number that its label has; none where no reason has the number.
pub fn reason_text(number: u8) -> Option<&'static str>
    ensures { option_copied result ≡ reason_text number }
{
    match number {
        1 => Some("the source is absent"),
        2 => Some("not a value of the type"),
        3 => Some("too long"),
        4 => Some("the list is full"),
        _ => None,
    }
}

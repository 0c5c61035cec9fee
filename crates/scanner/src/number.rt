ghost use Rattle.std.specs.Prelude.{◌≤◌, IsTrue};
ghost use Rattle.std.specs.Char.{is_ascii_digit};
ghost use Rattle.std.specs.List.{list_all};
ghost use Rattle.std.specs.Option.{SomeIff};
ghost use Rattle.scanner.specs.Lexemes.{value_of};
ghost use Rattle.scanner.specs.declared.number.TheConstants.{MOST_NUMBER};

/// The greatest number that a text may have.
pub const MOST_NUMBER: u32 = 2_147_483_647;

/// The number that digits write, unless it is greater than `MOST_NUMBER`.
pub fn value_of(digits: &[u8]) -> Option<u32>
    requires { IsTrue (list_all is_ascii_digit digits.now) }
    ensures { SomeIff result (value_of digits.now ≤ MOST_NUMBER) (value_of digits.now) }
{
    let mut value = 0;
    for digit in digits {
        value = 10 * value + u64::from(*digit - b'0');
        if value > u64::from(MOST_NUMBER) {
            return None;
        }
    }
    Some(value as u32)
}

// Bytes in hex: two digits for each, in either case of letters.
// Of the trials' own form; the digits are those of document 01, "Values".
ghost use Rattle.std.specs.Prelude.{◌*◌, ◌≤◌, length};
ghost use Rattle.trials.specs.Hex.{Answers};

use text::classes;

// Puts the bytes that the digits spell at the front of the room, and answers how many they are; none where they are not pairs of hex digits.
pub fn read(digits: &[u8], room: &mut [u8]) -> Option<usize>
    requires { length digits.now ≤ 2 * length room.old }
    ensures { Answers digits.now result room.new }
{
    let mut n = 0;
    let mut at = 0;
    while at < digits.len() {
        if digits.len() - at < 2 {
            return None;
        }
        let high = digits[at];
        let low = digits[at + 1];
        if !classes::is_hex(high) || !classes::is_hex(low) {
            return None;
        }
        room[n] = classes::hex_digit(high) * 16 + classes::hex_digit(low);
        n += 1;
        at += 2;
    }
    Some(n)
}

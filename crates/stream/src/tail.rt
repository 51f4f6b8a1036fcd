// The bytes short of a word at the end of what has come in: they are kept for the word that they begin.
ghost use Rattle.std.specs.Prelude.{◌≡◌, ◌-◌, ◌≤◌, length, take, drop};

// Moves the bytes from place `from` on to the front, and answers how many they are.
pub fn keep_tail(bytes: &mut [u8], from: usize) -> usize
    requires { from ≤ length bytes.old }
    ensures count { result ≡ length bytes.old - from }
    ensures moved { take result bytes.new ≡ drop from bytes.old }
{
    bytes.copy_within(from.., 0);
    bytes.len() - from
}

// Words, each put at a place of a lent buffer. The answer is the place after it.
ghost use Rattle.std.specs.Prelude.{◌+◌, ◌≤◌, length};
ghost use Rattle.text.specs.Putting.{Puts};

pub fn put_word(out: &mut [u8], at: usize, word: &[u8]) -> usize
    requires { at + length word.now ≤ length out.old }
    ensures { Puts word.now at out.old out.new result }
{
    for byte in 0..word.len() {
        out[at + byte] = word[byte];
    }
    at + word.len()
}

// A slice that is lent, before a call and after it; and what one slice has, copied to another.
#![tactic(auto)]

ghost use Rattle.std.specs.Prelude.{◌≡◌, length};

// all of `list` goes to a slice as long. As `copy_from_slice`, which becomes a call of C's `memmove`: a library that is linked without C would lack it
pub fn copy<T: Copy>(out: &mut [T], list: &[T])
    requires { length out.old ≡ length list.now }
    ensures after { out.new ≡ list.now }
{
    for i in 0..list.len() {
        out[i] = list[i];
    }
}

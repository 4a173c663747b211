// The output that answers are written into.

ghost use Rattle.std.specs.Prelude.{◌≤◌, length};

// what is lent for the output, and how many of its bytes are written
#[derive(Drop)]
pub struct Output<'a> {
    pub bytes: &'a mut [u8],
    pub at: usize,
    pub ghost fits: { at ≤ length bytes.now },
}

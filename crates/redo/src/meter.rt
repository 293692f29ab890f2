// Stores left and stores made. Each writer is told how many are left, and answers how many it made.
ghost use Rattle.std.specs.Prelude.{◌≡◌, ◌+◌, ◌-◌, ◌^◌, ◌≤◌, ◌<◌, length, replicate};
ghost use Rattle.wire.specs.Bytes.{zeros_but};
ghost use Rattle.redo.specs.Store.{run};
ghost use Rattle.redo.specs.Stage.{Makes};

#[derive(Clone, Copy, Debug, PartialEq, Eq)]
pub struct Meter {
    pub left: usize,
    pub made: usize,
}

impl Meter {
    // Counts n stores of those left as made.
    pub(crate) fn spend(&mut self, n: usize)
        requires { (n ≤ self.old.left) × (self.old.made + n < 2 ^ 64) }
        ensures left { self.new.left ≡ self.old.left - n }
        ensures made { self.new.made ≡ self.old.made + n }
    {
        self.left -= n;
        self.made += n;
    }
}

// Stores src at dst's start, as far as the stores left go.
fn write_run(dst: &mut [u8], src: &[u8], left: usize) -> usize
    requires { length src.now ≤ length dst.old }
    ensures { Makes left (run 0 src.now) dst.old result dst.new }
{
    let n = left.min(src.len());
    wire::copy(dst, 0, &src[..n]);
    n
}

// Stores src at an offset of the image: the part is lent to the writer.
pub fn write_at(image: &mut [u8], at: usize, src: &[u8], left: usize) -> usize
    requires { at + length src.now ≤ length image.old }
    ensures { Makes left (run at src.now) image.old result image.new }
{
    write_run(&mut image[at..at + src.len()], src, left)
}

// Stores so many zeros from an offset of the image on.
fn write_zeros(image: &mut [u8], at: usize, count: usize, left: usize) -> usize
    requires { at + count ≤ length image.old }
    ensures { Makes left (run at (replicate count 0)) image.old result image.new }
{
    let n = left.min(count);
    wire::fill(image, at, n, 0);
    n
}

// Stores zeros from an offset of the image to its end, but for a byte v at offset p.
pub fn write_rest(image: &mut [u8], at: usize, p: usize, v: u8, left: usize) -> usize
    requires { (at ≤ p) × (p < length image.old) }
    ensures { Makes left (run at (zeros_but (p - at) v (length image.old - at))) image.old result image.new }
{
    let end = image.len();
    let mut made = write_zeros(image, at, p - at, left);
    made += write_at(image, p, &[v], left - made);
    made += write_zeros(image, p + 1, end - (p + 1), left - made);
    made
}

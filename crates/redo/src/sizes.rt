// The sizes that a head may give, and the head check.
ghost use Rattle.std.specs.Prelude.{◌≡◌, ◌≤◌};
ghost use Rattle.redo.specs.Image.{head_ok, in_range, image_length, head_page};

// The letters at an image's start.
pub(crate) const LETTERS: [u8; 4] = *b"CIX1";

// R is 1 to 1,024, L is 1 to 26 + R.
pub fn in_range(capacity: usize, pages: usize) -> bool
    ensures { result ≡ in_range capacity pages }
{
    (1..=1024).contains(&pages) && (1..=26 + pages).contains(&capacity)
}

pub fn image_length(capacity: usize, pages: usize) -> usize
    requires { (capacity ≤ 65536) × (pages ≤ 65536) }
    ensures { result ≡ image_length capacity pages }
{
    64 + 66 * capacity + 64 * (26 + pages)
}

// The head page of an empty image.
pub fn head_page(capacity: usize, pages: usize) -> [u8; 64]
    ensures { result ≡ head_page capacity pages }
{
    let mut head = [0u8; 64];
    wire::copy(&mut head, 0, &LETTERS);
    wire::put16(&mut head, 4, capacity);
    wire::put16(&mut head, 6, pages);
    head
}

// Head and length are right, mark and entry count aside.
pub fn head_ok(image: &[u8]) -> bool
    ensures { result ≡ head_ok image.now }
{
    if image.len() < 64 {
        return false;
    }
    let capacity = wire::get16(image, 4);
    let pages = wire::get16(image, 6);
    wire::equal(&image[..4], &LETTERS)
        && in_range(capacity, pages)
        && wire::all_zero(&image[11..64])
        && image.len() == image_length(capacity, pages)
}

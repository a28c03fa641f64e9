// The shape of a frame: SOH, two printable characters, then ETX, or STX, printable data, ETX.
ghost use Rattle.std.specs.Prelude.{◌≡◌, ◌-◌};
ghost use Rattle.deciding.specs.Shape.{start_good, bare_shape, framed_shape, content};

// SOH and two printable characters.
fn start_good(h: &[u8]) -> bool
    ensures { result ≡ start_good h.now }
{
    let a = text::at(h, 1);
    let b = text::at(h, 2);
    (text::at(h, 0) == line::SOH) & (((32 <= a) & (a <= 126)) & ((32 <= b) & (b <= 126)))
}

pub fn is_bare(h: &[u8]) -> bool
    ensures { result ≡ bare_shape h.now }
{
    start_good(h) & ((h.len() == 4) & (text::at(h, 3) == line::ETX))
}

// The data between STX and ETX.
pub fn content_of(h: &[u8]) -> &[u8]
    ensures { result.now ≡ content h.now }
{
    text::first(text::rest(h, 4), h.len().saturating_sub(5))
}

pub fn is_framed(h: &[u8]) -> bool
    ensures { result ≡ framed_shape h.now }
{
    let last = text::at(h, h.len().saturating_sub(1)) == line::ETX;
    let ends = ((5 <= h.len()) & (text::at(h, 3) == line::STX)) & last;
    (start_good(h) & ends) & text::all_between(content_of(h), 32, 126)
}

//! Zeros by which a small field is embedded in a larger one.
ghost use Rattle.std.specs.Prelude.{◌≡◌};
ghost use Rattle.lc_field.specs.Roots.{root_by_size};

// The least-numbered zero, in a field of degree `large`, of the polynomial of a field of degree `small` and size `size`,
// both of the characteristic p. The polynomial of a prime field is x; that of a field in itself has its own x as a zero,
// and the number of x is p.
pub(crate) fn root_by_size(small: u8, large: u8, size: u16, p: u8) -> u8
    ensures { result ≡ root_by_size small large size p }
{
    if small == 1 {
        return 0;
    }
    if small == large {
        return p;
    }
    if size == 4 {
        if large == 4 {
            return 6;
        }
        if large == 6 {
            return 58;
        }
        return 214;
    }
    if size == 8 {
        return 14;
    }
    if size == 16 {
        return 78;
    }
    44
}

// The half-trace, which solves x² + x = c at width 7. These functions are no entry points.
ghost use Rattle.std.specs.Prelude.{◌≡◌, ◌%◌};
ghost use Rattle.field.specs.inner.HalfTrace.{half_trace};

// The half-traces of the even symbols: the symbol after each has the same.
static HALF_TRACES: [u8; 64] = [
    0, 16, 18, 2, 102, 118, 116, 100, 22, 6, 4, 20, 112, 96, 98, 114, // symbol 30
    40, 56, 58, 42, 78, 94, 92, 76, 62, 46, 44, 60, 88, 72, 74, 90, // symbol 62
    110, 126, 124, 108, 8, 24, 26, 10, 120, 104, 106, 122, 30, 14, 12, 28, // symbol 94
    70, 86, 84, 68, 32, 48, 50, 34, 80, 64, 66, 82, 54, 38, 36, 52, // symbol 126
];

// The half-trace at width 7.
pub fn half_trace(c: u8) -> u8
    ensures { result ≡ half_trace (c % 128) }
{
    HALF_TRACES[(c % 128 / 2) as usize]
}

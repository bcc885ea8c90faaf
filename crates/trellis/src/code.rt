// A convolutional code, as data: of a fixed size, so that a receiver without a heap owns it.

// Bit d of a row's taps is set where the row sums the bit that entered d steps ago; bit 0 is the newest.
#[derive(Clone, Copy)]
pub struct Code {
    pub rows: usize,
    pub taps: [u8; 5],
    pub memory: usize,
}

// A state of one cell, and its file.
use checkpoint::Stored;
use show::sized;

// Each byte of the step number and of seven entries is another one; then a NaN that signals, and all bits set.
pub const STEP: u32 = 0x0102_0304;

pub const F: [u64; 9] = [
    0x1112_1314_1516_1718,
    0x2122_2324_2526_2728,
    0x3132_3334_3536_3738,
    0x4142_4344_4546_4748,
    0x5152_5354_5556_5758,
    0x6162_6364_6566_6768,
    0x7172_7374_7576_7778,
    0x7ff0_0000_0000_0001,
    0xffff_ffff_ffff_ffff,
];

// What hosts are given of a file that is refused.
pub const NOTHING: Stored = Stored {
    nx: 0,
    ny: 0,
    step: 0,
};

// The file of that state, with one byte more behind it.
pub fn file() -> [u8; 86] {
    let mut file = [0; 86];
    checkpoint::write_checkpoint(sized(1, 1), STEP, &F, &mut file[0..85]).unwrap_or(());
    file
}

// The same with another byte at k.
pub fn changed(k: usize, byte: u8) -> [u8; 86] {
    let mut file = file();
    if let Some(there) = file.get_mut(k) {
        *there = byte;
    }
    file
}

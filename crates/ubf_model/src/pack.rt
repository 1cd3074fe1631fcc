// The numbers that a block is written from: what a caller wishes, so any type number and address may come, and `pack_of` refuses those of no
// type.
#[derive(Clone, Copy)]
pub struct Numbers {
    pub number: u16,
    pub address: u32,
    pub start: u32,
}

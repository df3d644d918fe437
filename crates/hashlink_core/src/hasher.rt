//! The default hasher.
use std::hash::{FoldHasher, Hasher};

/// The hasher that maps use unless they are given another: std's `FoldHasher`, from its fixed start.
///
/// It is fast and not cryptographic, so whoever picks the keys can make them collide.
#[derive(Clone, Copy)]
pub struct DefaultHasher {
    pub(crate) fold: FoldHasher,
}

impl Hasher for DefaultHasher {
    ghost use Rattle.hashlink_core.specs.Hashing.{write, finish};

    ghost write = { write };

    ghost finish = { finish };

    fn finish(&self) -> u64 {
        self.fold.finish()
    }

    fn write(&mut self, bytes: &[u8]) {
        self.fold.write(bytes);
    }

    fn write_u8(&mut self, i: u8) {
        self.fold.write_u8(i);
    }

    fn write_u16(&mut self, i: u16) {
        self.fold.write_u16(i);
    }

    fn write_u32(&mut self, i: u32) {
        self.fold.write_u32(i);
    }

    fn write_u64(&mut self, i: u64) {
        self.fold.write_u64(i);
    }

    fn write_u128(&mut self, i: u128) {
        self.fold.write_u128(i);
    }

    fn write_usize(&mut self, i: usize) {
        self.fold.write_usize(i);
    }

    fn write_i8(&mut self, i: i8) {
        self.fold.write_i8(i);
    }

    fn write_i16(&mut self, i: i16) {
        self.fold.write_i16(i);
    }

    fn write_i32(&mut self, i: i32) {
        self.fold.write_i32(i);
    }

    fn write_i64(&mut self, i: i64) {
        self.fold.write_i64(i);
    }

    fn write_i128(&mut self, i: i128) {
        self.fold.write_i128(i);
    }

    fn write_isize(&mut self, i: isize) {
        self.fold.write_isize(i);
    }
}

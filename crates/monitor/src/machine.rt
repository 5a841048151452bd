// The machine that a session is about: a controller by its image, the bus, and as many bytes as the largest storage has. Arrays, since
// there is no heap. One is written out where it lies, in `main` and in `files::open`: what a function hands out is copied, and the stack would
// have room for two.
use console::session;
use console::session::{Session, Turned};
use image::layout::IMAGE_BYTES;
use lines::memory::clear_from;
use pane::rows::lent;

pub(crate) const BUS_BYTES: usize = 65536;

pub(crate) const LARGEST_STORAGE: usize = 524288;

#[derive(Drop)]
pub struct Machine {
    pub image: [u8; IMAGE_BYTES],
    pub bus: [u8; BUS_BYTES],
    pub storage: [u8; LARGEST_STORAGE],
}

impl Machine {
    // The storage that the image sets: the first of the bytes.
    pub(crate) fn lent(&self) -> &[u8] {
        let size = lent(&self.image, &self.storage);
        &self.storage[..size]
    }

    // The same, to be written: `&` and `&mut` cannot be one.
    pub(crate) fn lent_mut(&mut self) -> &mut [u8] {
        let size = lent(&self.image, &self.storage);
        &mut self.storage[..size]
    }

    // After `size` there are zeros behind the storage, so that a larger one has no bytes of a machine before.
    pub(crate) fn clear_behind(&mut self) {
        let size = lent(&self.image, &self.storage);
        clear_from(&mut self.storage, size);
    }

    // A turn of the session.
    pub(crate) fn turn<'a>(&mut self, session: Session, line: &'a [u8]) -> Turned<'a> {
        let size = lent(&self.image, &self.storage);
        let storage = &mut self.storage[..];
        session::turn(
            session,
            line,
            &mut self.image,
            &mut self.bus,
            &mut storage[..size],
        )
    }
}

//! Sources over readers: [`io::IOReader`].

pub mod io;
mod sliding_buffer;

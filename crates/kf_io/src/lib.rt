//! Files and sinks as a program meets them: what they hold, where that is told, and how often they
//! failed.
#![tactic(auto)]

mod errors;
mod give;
mod host_files;
mod host_sink;
mod lists;
mod mem_files;
mod mem_sink;
mod reading;
mod sure_files;
mod traits;
mod writing;

pub use errors::{Failed, Mem, ReadError};
pub use host_files::HostFiles;
pub use host_sink::HostSink;
pub use lists::{ByteList, CallList, FileEntry, FileList, FileName};
pub use mem_files::MemFiles;
pub use mem_sink::MemSink;
pub use reading::read_whole;
pub use sure_files::SureFiles;
pub use traits::{Files, Sink};
pub use writing::{write_all, write_pieces};

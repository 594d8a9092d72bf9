//! The outside of the program: the octets that it reads and writes, its peers and its port.
//!
//! Every object of the outside counts its faults, and answers one only where its count rose. What
//! it has left to read, and what it was given to write, is told by the forms over memory.
#![tactic(auto)]

mod child_peers;
mod copying;
mod drop_sink;
mod edge;
mod failed;
mod faults;
mod host;
mod interrupted;
mod lines;
mod loopback_port;
mod mem_peer;
mod mem_peers;
mod mem_port;
mod mem_sink;
mod mem_source;
mod network;
mod peer_fault;
mod peers;
mod port;
mod port_line;
mod port_said;
mod programs;
mod reader;
mod reader_source;
mod reading;
mod scripted;
mod served_child;
mod sink;
mod slice_source;
mod source;
mod writer;
mod writer_sink;
mod writing;

pub use child_peers::ChildPeers;
pub use drop_sink::DropSink;
pub use edge::Edge;
pub use failed::Failed;
pub use host::{CountingHost, Host};
pub use loopback_port::LoopbackPort;
pub use mem_peers::MemPeers;
pub use mem_port::MemPort;
pub use mem_sink::MemSink;
pub use mem_source::MemSource;
pub use network::Network;
pub use peer_fault::PeerFault;
pub use peers::{PeerCall, Peers, Role, StartFault};
pub use port::Port;
pub use programs::{Program, Programs};
pub use reader::Reader;
pub use reader_source::ReaderSource;
pub use reading::{ReadAll, read_all, read_fill};
pub use scripted::Scripted;
pub use served_child::ServedChild;
pub use sink::Sink;
pub use slice_source::SliceSource;
pub use source::Source;
pub use writer::Writer;
pub use writer_sink::WriterSink;
pub use writing::write_all;

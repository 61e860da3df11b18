use crate::reader_source::ReaderSource;
use crate::writer_sink::WriterSink;
use std::io::{Stdin, Stdout};

/// The standard input as a source. It tells nothing of its bytes.
pub type StdinSource = ReaderSource<Stdin>;

/// The standard output as a sink. It tells nothing of what it took.
pub type StdoutSink = WriterSink<Stdout>;

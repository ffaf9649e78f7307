//! How the program is called over readers and writers of one's own.
use gix_date::device::Device;
use gix_date::{Error, Time};
use gix_date_tool::{Mode, Status, ToolError, execute, run};
use std::alloc::{AllocError, Global};
use std::io::{Read, Write};

/// The words of a command line.
pub fn words_of(alloc: Global, line: &[&str]) -> Result<Vec<String>, AllocError> {
    let mut words = Vec::new(alloc);
    for word in line {
        words.push(String::from_str(alloc, word)?)?;
    }
    Ok(words)
}

/// What writing a time into a writer comes to, and what became of the writer.
pub fn written<W: Write>(time: Time, writer: W) -> (Result<(), Error>, W) {
    let mut device = Device::new(writer);
    let answer = time.write_to(&mut device);
    (answer, device.into_inner())
}

/// How a run without a moment ends over this reader and this writer, and what became of the two.
pub fn ran<R: Read, W: Write>(
    alloc: Global,
    mode: Mode,
    reader: R,
    writer: W,
) -> (Result<u64, ToolError>, R, W) {
    let mut source = Device::new(reader);
    let mut sink = Device::new(writer);
    let ended = run(alloc, mode, None, &mut source, &mut sink);
    (ended, source.into_inner(), sink.into_inner())
}

/// How the program ends over this reader and these writers, and what became of the three.
pub fn executed<R: Read, W: Write, M: Write>(
    alloc: Global,
    words: &[String],
    reader: R,
    writer: W,
    messages: M,
) -> (Status, R, W, M) {
    let mut source = Device::new(reader);
    let mut sink = Device::new(writer);
    let mut said = Device::new(messages);
    let ended = execute(alloc, words, &mut source, &mut sink, &mut said);
    (
        ended,
        source.into_inner(),
        sink.into_inner(),
        said.into_inner(),
    )
}

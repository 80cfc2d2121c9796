//! The edge to the system: files by name, and the standard streams. They don't report their bytes.
ghost use Rattle.std.specs.Prelude.{◌≡◌, ◌+◌, ◌-◌, ◌^◌, ◌≤◌, ◌<◌, [], length, take, min, string_bytes, None, IfOk, IfSome, OnOk, OnErr};
ghost use Rattle.std.specs.Io.KnownBytes.{Appends};
ghost use Rattle.xray_io.specs.{Desk.{Untold}, Faults.{raised}};

use crate::{Desk, Failed, ReadFail, Sink};
use std::fs::{Metadata, OpenFile, OpenOptions};
use std::io::{ErrorKind, Read, Seek, SeekFrom, Write};
use std::os::unix::fs::MetadataExt;
use std::rt::Files;
use std::{fs, io};

/// The files of the system, by path. Each error is a fault, that of a missing file too.
///
/// The file that was read last stays open while reads go on where the last one ended, so that a
/// pipe can be read. The file that was written last stays open while the same name is written, so
/// that a pipe can be written.
///
/// A name isn't created if it is another name for a file in use: a regular file that this desk has
/// read or written, or that standard output is. This is a fault of writing, and the file stays as
/// it was. Files are compared by device and inode, so symbolic links, hard links and other
/// spellings of a path are seen through. These aren't compared:
/// - devices, pipes and sockets, so that `/dev/null` can stand for several outputs;
/// - files that other programs use, such as the reader of a pipe, and the file of standard error;
/// - files of a file system that gives one file several inodes or devices, or none;
/// - standard output, if there is no `/dev/stdout`;
/// - names that are appended to without being created.
///
/// If standard output was closed when the program began, a file that is begun may take its place.
/// It isn't created then, but is left without bytes.
#[derive(Drop)]
pub struct FileDesk<R: Files> {
    rt: R,
    opened: Option<Opened<R::File>>,
    written: Option<Written<R::File>>,
    used: Vec<FileId>,
    read_faults: u64,
    write_faults: u64,
}

/// Which regular file it is: its device, and its inode there. Names with the same device and inode
/// are names for one file.
#[derive(Clone, Copy, PartialEq, Eq)]
struct FileId {
    device: u64,
    inode: u64,
}

impl FileId {
    /// Which file has this metadata, if it is a regular file and the file system gives an inode.
    fn of(metadata: &Metadata) -> Option<FileId> {
        let (device, inode) = (metadata.dev(), metadata.ino());
        (metadata.is_file() && inode > 0).then_some(FileId { device, inode })
    }
}

/// A file that is open at its end, for writing.
#[derive(Drop)]
struct Written<F> {
    name: String,
    file: F,
}

/// A file that was read up to a place.
#[derive(Drop)]
struct Opened<F> {
    name: String,
    file: F,
    place: u64,
}

impl<R: Files + AllocGlobal> FileDesk<R> {
    /// A desk over the files that the runtime reaches.
    pub fn new(rt: R) -> Self
        ensures read_faults { ⟦<FileDesk<R> as Desk>⟧.read_faults result ≡ 0 }
        ensures write_faults { ⟦<FileDesk<R> as Desk>⟧.write_faults result ≡ 0 }
    {
        let alloc = rt.alloc();
        FileDesk {
            rt,
            opened: None,
            written: None,
            used: Vec::new(alloc),
            read_faults: 0,
            write_faults: 0,
        }
    }

    /// Remembers that a file is in use.
    fn remember(&mut self, file: &R::File) -> io::Result<()>
        ensures read_faults { self.new.read_faults ≡ self.old.read_faults }
        ensures write_faults { self.new.write_faults ≡ self.old.write_faults }
    {
        match FileId::of(&file.metadata()?) {
            Some(id) if !self.used.contains(&id) => Ok(self.used.push(id)?),
            _ => Ok(()),
        }
    }

    /// Whether this file was read or written, or is standard output.
    fn is_in_use(&self, id: FileId) -> bool {
        let output = match fs::metadata(&self.rt, "/dev/stdout") {
            Ok(metadata) => FileId::of(&metadata),
            Err(_) => None,
        };
        output == Some(id) || self.used.contains(&id)
    }

    /// Opens a file for reading from this place on.
    fn open(&mut self, name: &str, place: u64) -> io::Result<Opened<R::File>>
        ensures name { IfOk result (λ opened. string_bytes opened.name ≡ name.now) }
        ensures place { IfOk result (λ opened. opened.place ≡ place) }
        ensures read_faults { self.new.read_faults ≡ self.old.read_faults }
        ensures write_faults { self.new.write_faults ≡ self.old.write_faults }
    {
        let name = String::from_str(self.rt.alloc(), name)?;
        let mut file = fs::open(&self.rt, name.as_str())?;
        self.remember(&file)?;
        if place > 0 {
            file.seek(SeekFrom::Start(place))?;
        }
        Ok(Opened { name, file, place })
    }

    /// The file that was read last, if it is this one at this place. Otherwise the file is opened.
    fn take_opened(&mut self, name: &str, place: u64) -> io::Result<Opened<R::File>>
        ensures name { IfOk result (λ opened. string_bytes opened.name ≡ name.now) }
        ensures place { IfOk result (λ opened. opened.place ≡ place) }
        ensures read_faults { self.new.read_faults ≡ self.old.read_faults }
        ensures write_faults { self.new.write_faults ≡ self.old.write_faults }
    {
        match self.opened.take() {
            Some(opened) if opened.name.as_str() == name && opened.place == place => Ok(opened),
            _ => self.open(name, place),
        }
    }

    /// Reads bytes of a file from this place on, and keeps the file open.
    fn read_file(&mut self, name: &str, from: u64, buf: &mut [u8]) -> io::Result<usize>
        ensures within { IfOk result (λ n. n ≤ length buf.new) }
        ensures kept { IfOk result (λ n. IfSome self.new.opened (λ opened.
            (string_bytes opened.name ≡ name.now)
            × (opened.place ≡ min (from + n) (2 ^ 64 - 1)))) }
        ensures read_faults { self.new.read_faults ≡ self.old.read_faults }
        ensures write_faults { self.new.write_faults ≡ self.old.write_faults }
    {
        let mut opened = self.take_opened(name, from)?;
        let count = opened.file.read(buf)?;
        opened.place = from.saturating_add(count as u64);
        self.opened = Some(opened);
        Ok(count)
    }

    /// Makes a file hold no bytes, unless it is in use. It is opened, looked at and then emptied, so
    /// no other file can come in between. Memory is taken before it is opened: a file that isn't
    /// there is begun only if nothing but the system can fail after that.
    fn create_file(&mut self, name: &str) -> io::Result<Written<R::File>>
        ensures name { IfOk result (λ written. string_bytes written.name ≡ name.now) }
        ensures read_faults { self.new.read_faults ≡ self.old.read_faults }
        ensures write_faults { self.new.write_faults ≡ self.old.write_faults }
    {
        let name = String::from_str(self.rt.alloc(), name)?;
        self.used.reserve(1)?;
        let file = OpenOptions::new()
            .write(true)
            .create(true)
            .open(&self.rt, name.as_str())?;
        let metadata = file.metadata()?;
        if let Some(id) = FileId::of(&metadata) {
            if self.is_in_use(id) {
                return Err(io::Error::from(ErrorKind::AlreadyExists));
            }
            self.used.push(id)?;
        }
        if metadata.is_file() {
            file.set_len(0)?;
        }
        Ok(Written { name, file })
    }

    /// Opens a file at its end. A missing file is begun.
    fn open_end(&mut self, name: &str) -> io::Result<Written<R::File>>
        ensures name { IfOk result (λ written. string_bytes written.name ≡ name.now) }
        ensures read_faults { self.new.read_faults ≡ self.old.read_faults }
        ensures write_faults { self.new.write_faults ≡ self.old.write_faults }
    {
        let name = String::from_str(self.rt.alloc(), name)?;
        self.used.reserve(1)?;
        let file = OpenOptions::new()
            .append(true)
            .create(true)
            .open(&self.rt, name.as_str())?;
        self.remember(&file)?;
        Ok(Written { name, file })
    }

    /// The file that was written last, if it is this one. Otherwise the file is opened at its end.
    fn take_written(&mut self, name: &str) -> io::Result<Written<R::File>>
        ensures name { IfOk result (λ written. string_bytes written.name ≡ name.now) }
        ensures read_faults { self.new.read_faults ≡ self.old.read_faults }
        ensures write_faults { self.new.write_faults ≡ self.old.write_faults }
    {
        match self.written.take() {
            Some(written) if written.name.as_str() == name => Ok(written),
            _ => self.open_end(name),
        }
    }

    /// Counts a failed write.
    fn fail_write(&mut self) -> Failed
        ensures write_faults { self.new.write_faults
            ≡ raised self.old.write_faults }
        ensures later { self.old.write_faults ≤ self.new.write_faults }
        ensures read_faults { self.new.read_faults ≡ self.old.read_faults }
    {
        self.write_faults = self.write_faults.saturating_add(1);
        Failed
    }
}

impl<R: Files + AllocGlobal> Desk for FileDesk<R> {
    ghost held = { λ _ _. Untold };

    ghost read_faults = { λ desk. desk.read_faults };

    ghost write_faults = { λ desk. desk.write_faults };

    ghost along = { λ _ _ _. Unit {0} };

    ghost along_none = { λ _. tt };

    ghost along_both = { λ _ _ _ _ _ _ _. tt };

    fn read(&mut self, name: &str, from: u64, buf: &mut [u8]) -> Result<usize, ReadFail> {
        match self.read_file(name, from, buf) {
            Ok(count) => Ok(count),
            Err(_) => {
                self.read_faults = self.read_faults.saturating_add(1);
                Err(ReadFail::Failed)
            }
        }
    }

    fn create(&mut self, name: &str) -> Result<(), Failed> {
        self.written = None;
        match self.create_file(name) {
            Ok(written) => {
                self.written = Some(written);
                Ok(())
            }
            Err(_) => Err(self.fail_write()),
        }
    }

    fn append(&mut self, name: &str, bytes: &[u8]) -> Result<usize, Failed> {
        let Ok(mut written) = self.take_written(name) else {
            return Err(self.fail_write());
        };
        let count = write_some(&mut written.file, bytes, &mut self.write_faults)?;
        self.written = Some(written);
        Ok(count)
    }
}

/// A stream that text is printed to, as the standard output is.
#[derive(Drop)]
pub struct OutSink<P> {
    to: P,
    faults: u64,
}

impl<P: Print> OutSink<P> {
    /// A sink over a stream: over the standard output if `to` is the runtime.
    pub fn new(to: P) -> Self
        ensures { ⟦<OutSink<P> as Sink>⟧.faults result ≡ 0 }
    {
        OutSink { to, faults: 0 }
    }
}

impl<P: Print> Sink for OutSink<P> {
    ghost written = { λ _. None };

    ghost faults = { λ sink. sink.faults };

    ghost along = { λ _ _ _. Unit {0} };

    fn write(&mut self, bytes: &[u8]) -> Result<usize, Failed> {
        write_some(&mut io::writer(&self.to), bytes, &mut self.faults)
    }

    ghost along_none = { λ _. tt };

    ghost along_both = { λ _ _ _ _ _ _ _. tt };
}

/// The standard error, as `rt.stderr()` gives it.
pub type ErrSink<P> = OutSink<P>;

/// Writes a prefix of the bytes. An error is a fault, and so is a write that took none of them.
fn write_some<W: Write>(to: &mut W, bytes: &[u8], faults: &mut u64) -> Result<usize, Failed>
    ensures within { IfOk result (λ n. n ≤ length bytes.now) }
    ensures taken { IfOk result (λ n.
        Appends (W.contents to.old) (W.contents to.new) (take n bytes.now)) }
    ensures goes_on { IfOk result (λ n. n ≡ 0 → bytes.now ≡ []) }
    ensures failed { OnErr result (faults.new ≡ raised faults.old) }
    ensures none { OnOk result (faults.new ≡ faults.old) }
    ensures later { faults.old ≤ faults.new }
{
    match to.write(bytes) {
        Ok(count) if count > 0 || bytes.is_empty() => Ok(count),
        _ => {
            *faults = faults.saturating_add(1);
            Err(Failed)
        }
    }
}

ghost use Rattle.std.specs.Prelude.{◌≡◌, ◌≤◌, ◌++◌, ℕ, List, length, vec_len, IfOk, IfErr, OnOk};
ghost use Rattle.std.specs.Io.KnownBytes.{Consumes, IsAtEnd};
ghost use Rattle.bfm_base.specs.declared.limits.TheConstants.{GREATEST_LIMIT, GREATEST_MCS};
ghost use Rattle.bfm_world.specs.Configuration.{IsValid};
ghost use Rattle.bfm_commands.specs.Reading.{ArePlaces, StandsFor};
ghost use Rattle.bfm_session.specs.Loading.{IsLoaded, Stops, Takes, supply};
ghost use Rattle.bfm_session.specs.Pieces.{Decides, fault_of};

use bfm_base::{ReadStop, Refused, Source};
use bfm_commands::{Loaded, Reader};
use std::alloc::Global;

/// Why a file was not loaded.
#[derive(Clone, Copy, Debug, PartialEq, Eq)]
pub enum LoadFault {
    /// It has a wrong line, or no whole frame.
    Refused(Refused),
    /// It has more bytes than the limit.
    TooLong,
    /// A call of the source failed.
    ReadFault,
    /// Want of memory.
    Memory,
}

/// How many bytes are read at once.
const PIECE: usize = 65_536;

/// Reads a file from a source, of at most `limit` bytes, and judges it piece by piece. Gives what it
/// holds, and its kept part: all bytes up to the newline that ends the last whole frame.
///
/// A wrong line is refused as soon as the piece has come that ends it, and a file that is too long
/// as soon as there is a byte beyond the limit. What comes first in the file decides, a fault of the
/// source among them. A file without a whole frame is refused at its end.
pub fn load<I: Source>(
    alloc: Global,
    input: &mut I,
    limit: u64,
) -> Result<(Loaded, Vec<u8>), LoadFault>
    requires { limit ≤ GREATEST_LIMIT }
    ensures loaded { IfOk result (λ read. (taken : List ℕ) × IsLoaded read.0 read.1.items limit
        (supply (I.left input.old) (I.faults input.old)) (supply (I.left input.new) (I.faults input.new)) taken) }
    ensures stopped { IfErr result (λ fault. (taken : List ℕ)
        × Takes limit (supply (I.left input.old) (I.faults input.old)) (supply (I.left input.new) (I.faults input.new)) taken
        × Stops fault limit (supply (I.left input.old) (I.faults input.old)) (supply (I.left input.new) (I.faults input.new)) taken) }
    ensures valid { IfOk result (λ read. IsValid read.0.world) }
    ensures first { IfOk result (λ read. ArePlaces (length read.0.world.positions) read.0.first) }
    ensures mcs { IfOk result (λ read. read.0.mcs ≤ GREATEST_MCS) }
    ensures kept { IfOk result (λ read. vec_len read.1 ≡ read.0.kept) }
{
    let (reader, mut bytes) = read_all(alloc, input, limit as usize)?;
    match reader.end() {
        Ok(loaded) => {
            bytes.truncate(loaded.kept as usize);
            Ok((loaded, bytes))
        }
        Err(stop) => Err(fault_of(stop)),
    }
}

/// Reads a source to its end, and feeds what it gives to a reader. Gives that and the bytes.
fn read_all<I: Source>(
    alloc: Global,
    input: &mut I,
    limit: usize,
) -> Result<(Reader, Vec<u8>), LoadFault>
    requires { limit ≤ GREATEST_LIMIT }
    ensures all { IfOk result (λ read. Consumes (I.left input.old) (I.left input.new) read.1.items × IsAtEnd (I.left input.new)) }
    ensures calm { IfOk result (λ _. I.faults input.new ≡ I.faults input.old) }
    ensures within { IfOk result (λ read. vec_len read.1 ≤ limit) }
    ensures stands { IfOk result (λ read. StandsFor read.0 read.1.items) }
    ensures stopped { IfErr result (λ fault. (taken : List ℕ)
        × Takes limit (supply (I.left input.old) (I.faults input.old)) (supply (I.left input.new) (I.faults input.new)) taken
        × Stops fault limit (supply (I.left input.old) (I.faults input.old)) (supply (I.left input.new) (I.faults input.new)) taken) }
{
    let Ok(mut reader) = Reader::new(alloc) else {
        return Err(LoadFault::Memory);
    };
    let mut bytes = Vec::new(alloc);
    let mut piece = [0; PIECE];
    loop {
        match input.read(&mut piece) {
            Ok(0) => return Ok((reader, bytes)),
            Ok(given) => take_piece(&mut reader, &mut bytes, &piece[..given], limit)?,
            Err(_) => return Err(LoadFault::ReadFault),
        }
    }
}

/// Feeds the next piece of a file to a reader, as far as the limit admits it, and keeps it behind
/// the bytes that were fed before.
fn take_piece(
    reader: &mut Reader,
    bytes: &mut Vec<u8>,
    piece: &[u8],
    limit: usize,
) -> Result<(), LoadFault>
    requires limit { limit ≤ GREATEST_LIMIT }
    requires within { vec_len bytes.old ≤ limit }
    requires stands { StandsFor reader.old bytes.old.items }
    ensures more { OnOk result (bytes.new.items ≡ bytes.old.items ++ piece.now) }
    ensures within { OnOk result (vec_len bytes.new ≤ limit) }
    ensures stands { OnOk result (StandsFor reader.new bytes.new.items) }
    ensures decides { IfErr result (λ fault. Decides fault limit (bytes.old.items ++ piece.now)) }
{
    let room = limit - bytes.len();
    match reader.feed(&piece[..room.min(piece.len())]) {
        Ok(()) => {}
        Err(stop) => return Err(fault_of(stop)),
    }
    if piece.len() > room {
        return Err(LoadFault::TooLong);
    }
    match bytes.extend_from_slice(piece) {
        Ok(()) => Ok(()),
        Err(_) => Err(LoadFault::Memory),
    }
}

/// Why a file was not loaded whose reader stopped.
fn fault_of(stop: ReadStop) -> LoadFault
    ensures { result ≡ fault_of stop }
{
    match stop {
        ReadStop::Refused(refused) => LoadFault::Refused(refused),
        ReadStop::Memory => LoadFault::Memory,
    }
}

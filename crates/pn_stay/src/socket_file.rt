//! The files of Unix sockets, and the locks beside them.

ghost use Rattle.std.specs.Prelude.{◌≡◌, ◌≢◌, ◌++◌, codes, false, true, Ok, Err, string_bytes, IfErr, IfOk, MatchBool, OnOk};
ghost use Rattle.std.specs.IoError.{error_kind};
ghost use Rattle.pn_stay.specs.declared.socket_file.ListenFault.TheVariants.{Lock, Path};

use libc::EADDRINUSE;
use libc::net::listen;
use mio::net::UnixStream as Caller;
use std::alloc::{AllocError, AllocFailed, Global};
use std::fs::{File, Files, Metadata, OpenOptions, Permissions, TryLockError};
use std::io::ErrorKind;
use std::net::Net;
use std::os::fd::{AsFd, AsRawFd, OwnedFd};
use std::os::unix::fs::{FileTypeExt, MetadataExt, OpenOptionsExt, PermissionsExt};
use std::os::unix::net;
use std::os::unix::net::UnixListener;
use std::sync::{Arc, Mutex, Wait};
use std::{fs, io};

/// The permissions of a Unix socket that its owner alone may use.
pub const OWNER_ALONE: u32 = 0o600;

/// As many clients may wait as the system allows.
const BACKLOG: i32 = -1;

/// Why a path is not listened on.
#[derive(Drop)]
pub enum ListenFault {
    /// The system refuses the path, or another program has it.
    Path(io::Error),
    /// The system refuses the lock beside it.
    Lock(io::Error),
}

impl From<AllocError> for ListenFault {
    fn from(fault: AllocError) -> ListenFault {
        ListenFault::Path(io::Error::from(fault))
    }
}

impl<T: Drop> From<AllocFailed<T>> for ListenFault {
    fn from(fault: AllocFailed<T>) -> ListenFault {
        ListenFault::from(AllocError::from(fault))
    }
}

impl From<ListenFault> for io::Error {
    fn from(fault: ListenFault) -> io::Error {
        match fault {
            ListenFault::Path(error) | ListenFault::Lock(error) => error,
        }
    }
}

/// Which file a path leads to.
#[derive(Clone, Copy, PartialEq, Eq)]
pub(crate) struct FileIdentity {
    device: u64,
    inode: u64,
}

impl FileIdentity {
    /// Which file this is of which the system told.
    pub(crate) fn of(metadata: &Metadata) -> FileIdentity {
        FileIdentity {
            device: metadata.dev(),
            inode: metadata.ino(),
        }
    }
}

/// Whether a path still leads to a file. It does not where it leads to another file, or to none. An error does not tell.
pub(crate) fn is_still(found: io::Result<FileIdentity>, made: FileIdentity) -> io::Result<bool>
    ensures same { IfOk found (λ found. found ≡ made → result ≡ Ok true) }
    ensures other { IfOk found (λ found. found ≢ made → result ≡ Ok false) }
    ensures gone { IfErr found (λ error. error_kind error ≡ ErrorKind.NotFound → result ≡ Ok false) }
    ensures unknown { IfErr found (λ error. error_kind error ≢ ErrorKind.NotFound → result ≡ Err error) }
{
    match found {
        Ok(found) => Ok(found == made),
        Err(error) => match error.kind() {
            ErrorKind::NotFound => Ok(false),
            _ => Err(error),
        },
    }
}

/// The file of a Unix socket that this process has made. While it is kept, this process holds the lock beside the path, and
/// no other one begins to listen there.
#[derive(Drop)]
pub struct SocketFile {
    path: String,
    permissions: u32,
    // Which file was made last. None: there is none so far, or it was removed for good.
    made: Mutex<Option<FileIdentity>>,
    lock: File,
}

impl SocketFile {
    /// Listens at a path, whose file has these permissions. A socket there is replaced where nobody listens on it.
    pub(crate) fn bind<R: Files<File = File> + Net + Wait>(
        rt: &R,
        alloc: Global,
        path: &str,
        permissions: u32,
    ) -> Result<(Arc<SocketFile>, UnixListener), ListenFault> {
        let lock = lock_path(rt, alloc, path)?;
        let path = String::from_str(alloc, path)?;
        let file = SocketFile {
            path,
            permissions,
            made: Mutex::new(None),
            lock,
        };
        let file = Arc::new(alloc, file)?;
        match file.make(rt) {
            Ok(listener) => Ok((file, listener)),
            Err(error) => Err(ListenFault::Path(error)),
        }
    }

    fn make<R: Files + Net + Wait>(&self, rt: &R) -> io::Result<UnixListener> {
        let (listener, made) = make(rt, self.path.as_str(), self.permissions)?;
        *self.made.lock(rt) = Some(made);
        Ok(listener)
    }

    /// Its path.
    pub(crate) fn path(&self) -> &str {
        self.path.as_str()
    }

    /// Makes the file again where it is no longer at its path. None: it is there, or was removed for good.
    pub(crate) fn make_again<R: Files + Net + Wait>(
        &self,
        rt: &R,
    ) -> io::Result<Option<UnixListener>> {
        let mut last = self.made.lock(rt);
        let Some(made) = *last else {
            return Ok(None);
        };
        if is_still(identify(rt, self.path.as_str()), made)? {
            return Ok(None);
        }
        let (listener, made) = make(rt, self.path.as_str(), self.permissions)?;
        *last = Some(made);
        Ok(Some(listener))
    }

    /// Removes the file, unless its path leads to another one by now. It is made no more.
    pub fn remove<R: Files + Wait>(&self, rt: &R) {
        let mut last = self.made.lock(rt);
        if let Some(made) = *last {
            if let Ok(true) = is_still(identify(rt, self.path.as_str()), made) {
                let _ = fs::remove_file(rt, self.path.as_str());
            }
        }
        *last = None;
    }
}

/// Removes the files of sockets.
pub fn remove_sockets<R: Files + Wait>(rt: &R, files: &[Arc<SocketFile>]) {
    for file in files {
        file.remove(rt);
    }
}

/// The path of the lock beside a path.
pub fn format_lock(alloc: Global, path: &str) -> Result<String, AllocError>
    ensures { IfOk result (λ name. string_bytes name ≡ path.now ++ codes ".lock") }
{
    format!(in alloc; "{path}.lock")
}

// Which file is at a path. A link is not followed.
fn identify<R: Files>(rt: &R, path: &str) -> io::Result<FileIdentity> {
    let metadata = rt.symlink_metadata(path)?;
    Ok(FileIdentity::of(&metadata))
}

// Locks the file beside a path, which tells others that somebody listens there. The system ends the lock with its process. The
// file stays: who removed it could remove the lock of another.
fn lock_path<R: Files<File = File>>(
    rt: &R,
    alloc: Global,
    path: &str,
) -> Result<File, ListenFault> {
    let name = format_lock(alloc, path)?;
    let mut options = OpenOptions::new();
    let options = options
        .read(true)
        .write(true)
        .create(true)
        .mode(OWNER_ALONE);
    let file = match options.open(rt, name.as_str()) {
        Ok(file) => file,
        Err(error) => return Err(refuse_lock(error)),
    };
    match file.try_lock() {
        Ok(()) => Ok(file),
        Err(TryLockError::WouldBlock) => Err(ListenFault::Path(address_in_use())),
        Err(TryLockError::Error(error)) => Err(ListenFault::Lock(error)),
    }
}

// Why a lock is not opened. Where its directory is missing, the path is at fault.
fn refuse_lock(error: io::Error) -> ListenFault
    ensures directory { error_kind error ≡ ErrorKind.NotFound → result ≡ Path error }
    ensures lock { error_kind error ≢ ErrorKind.NotFound → result ≡ Lock error }
{
    match error.kind() {
        ErrorKind::NotFound => ListenFault::Path(error),
        _ => ListenFault::Lock(error),
    }
}

// The system's error where somebody has an address.
fn address_in_use() -> io::Error {
    io::Error::from_raw_os_error(EADDRINUSE)
}

// Makes a socket at a path, and tells which file it is.
fn make<R: Files + Net>(
    rt: &R,
    path: &str,
    permissions: u32,
) -> io::Result<(UnixListener, FileIdentity)> {
    let listener = bind_or_replace(rt, path, permissions)?;
    Ok((listener, identify(rt, path)?))
}

fn bind_or_replace<R: Files + Net>(
    rt: &R,
    path: &str,
    permissions: u32,
) -> io::Result<UnixListener> {
    match bind(rt, path, permissions) {
        Ok(listener) => Ok(listener),
        Err(error) => {
            if error.kind() != ErrorKind::AddrInUse || !is_stale(rt, path)? {
                return Err(error);
            }
            fs::remove_file(rt, path)?;
            bind(rt, path, permissions)
        }
    }
}

// Nobody connects before the file has its permissions, since the socket listens only then.
fn bind<R: Files + Net>(rt: &R, path: &str, permissions: u32) -> io::Result<UnixListener> {
    let socket = rt.unix_socket()?;
    rt.bind_unix(socket.as_fd(), &net::SocketAddr::from_pathname(path)?)?;
    match begin_to_listen(rt, path, permissions, socket) {
        Ok(listener) => Ok(listener),
        Err(error) => {
            let _ = fs::remove_file(rt, path);
            Err(error)
        }
    }
}

fn begin_to_listen<R: Files>(
    rt: &R,
    path: &str,
    permissions: u32,
    socket: OwnedFd,
) -> io::Result<UnixListener> {
    fs::set_permissions(rt, path, Permissions::from_mode(permissions))?;
    if listen(socket.as_raw_fd(), BACKLOG) != 0 {
        return Err(address_in_use());
    }
    Ok(UnixListener::from(socket))
}

// Whether a path is that of a socket on which nobody listens.
fn is_stale<R: Files + Net>(rt: &R, path: &str) -> io::Result<bool> {
    if !rt.symlink_metadata(path)?.file_type().is_socket() {
        return Ok(false);
    }
    Ok(is_refused(Caller::connect(rt, path)))
}

// Whether a connect was refused, as where nobody listens. Another error does not tell whether somebody does.
fn is_refused(connected: io::Result<Caller>) -> bool
    ensures open { OnOk connected (result ≡ false) }
    ensures error { IfErr connected (λ error.
        MatchBool result (error_kind error ≡ ErrorKind.ConnectionRefused) (error_kind error ≢ ErrorKind.ConnectionRefused)) }
{
    match connected {
        Ok(_) => false,
        Err(error) => match error.kind() {
            ErrorKind::ConnectionRefused => true,
            _ => false,
        },
    }
}

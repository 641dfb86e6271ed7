//! What the messages mean, field by field.
use xl_smb::*;

pub(crate) const KEY: [u8; 16] = [0x22; 16];

/// A lease for all three.
pub(crate) const LEASE: Lease = Lease {
    key: KEY,
    state: 7,
    flags: 0,
    duration: 0,
};

fn are_all(bytes: &[u8], wanted: u8) -> bool {
    for byte in bytes {
        if *byte != wanted {
            return false;
        }
    }
    true
}

/// Whether a header is as in the vectors, except for its command and its status.
pub(crate) fn is_head(head: &SmbHead) -> bool {
    let numbers = (head.flags & 2, head.message_id, head.session_id);
    let is_routed = match head.route {
        Route::Tree(0) => numbers == (0, 0, 0),
        Route::Tree(7) => numbers == (0, 5, 9),
        Route::Async(0x7_0000_0006) => numbers == (2, 5, 9),
        _ => false,
    };
    is_routed
        && (head.credit_charge, head.credits, head.next_command) == (0, 1, 0)
        && are_all(&head.signature, 0)
}

fn is_file(file_id: &FileId) -> bool {
    (file_id.persistent, file_id.volatile) == (0x1_0000_0003, 0x1_0000_0003)
}

fn is_status(status: &FileStatus) -> bool {
    let times = (
        status.created,
        status.accessed,
        status.written,
        status.changed,
    );
    let sizes = (status.allocated, status.end_of_file, status.attributes);
    times == (1, 2, 3, 4) && sizes == (5, 6, 0x80)
}

fn is_lease(lease: &Lease, state: u32, flags: u32) -> bool {
    (lease.state, lease.flags, lease.duration) == (state, flags, 0) && are_all(&lease.key, 0x22)
}

/// Whether the lease for all three is among the contexts.
pub(crate) fn has_lease(contexts: Contexts) -> bool {
    match contexts.lease() {
        Some(lease) => is_lease(&lease, 7, 0),
        None => false,
    }
}

fn is_negotiate(call: &NegotiateCall) -> bool {
    (call.security_mode, call.capabilities) == (1, 0)
        && are_all(&call.client_guid, 0x11)
        && call.dialects.0 == [0x10, 2].as_slice()
}

fn is_agreed(reply: &NegotiateReply) -> bool {
    let sizes = (reply.max_transact, reply.max_read, reply.max_write);
    (reply.security_mode, reply.dialect, reply.capabilities) == (1, 0x0210, 2)
        && are_all(&reply.server_guid, 0)
        && sizes == (65536, 65536, 65536)
        && (reply.system_time, reply.start_time, reply.buffer.len()) == (0, 0, 0)
}

fn is_create(call: &CreateCall) -> bool {
    let numbers = (
        call.desired_access,
        call.share_access,
        call.disposition,
        call.options,
    );
    numbers == (3, 7, 1, 0x40)
        && (call.oplock_level, call.name) == (0xFF, [0x66, 0, 0x30, 0].as_slice())
        && has_lease(call.contexts)
}

fn is_created(reply: &CreateReply) -> bool {
    (reply.oplock_level, reply.action) == (0xFF, 1)
        && is_status(&reply.status)
        && is_file(&reply.file_id)
        && has_lease(reply.contexts)
}

fn is_element(element: LockElement, offset: u64, length: u64, flags: u32) -> bool {
    (element.offset, element.length, element.flags) == (offset, length, flags)
}

fn is_lock(call: &LockCall) -> bool {
    let ranges = call.elements;
    call.sequence == 6
        && is_file(&call.file_id)
        && !ranges.is_empty()
        && ranges.len() == 2
        && is_element(ranges.at(0), 1, 10, 0x12)
        && is_element(ranges.at(1), 0x1_0000_0000, 1, 0x11)
}

fn is_break(held: &Break) -> bool {
    match held {
        Break::Oplock(level, file_id) => *level == 1 && is_file(file_id),
        Break::Lease(lease) => is_lease(lease, 3, 2),
    }
}

fn is_notice(notice: &Notice) -> bool {
    match notice {
        Notice::Oplock(level, file_id) => *level == 1 && is_file(file_id),
        Notice::Lease(told) => {
            (told.flags, told.current, told.new) == (1, 7, 1) && are_all(&told.key, 0x22)
        }
    }
}

fn is_setup(call: &SessionSetupCall) -> bool {
    (
        call.flags,
        call.security_mode,
        call.previous_session,
        call.buffer,
    ) == (1, 2, 8, b"abc".as_slice())
}

fn is_tree(reply: &TreeConnectReply) -> bool {
    (
        reply.share_type,
        reply.flags,
        reply.capabilities,
        reply.maximal_access,
    ) == (1, 0, 0, 0x001F_01FF)
}

/// The command of a request, and whether the request is that of a vector.
fn meaning_of_call(call: &SmbCall) -> (u16, bool) {
    match call {
        SmbCall::Negotiate(call) => (0, is_negotiate(call)),
        SmbCall::SessionSetup(call) => (1, is_setup(call)),
        SmbCall::Logoff => (2, true),
        SmbCall::TreeConnect(path) => (3, *path == [0x5C, 0, 0x78, 0].as_slice()),
        SmbCall::TreeDisconnect => (4, true),
        SmbCall::Create(call) => (5, is_create(call)),
        SmbCall::Close(call) => (6, call.flags == 1 && is_file(&call.file_id)),
        SmbCall::Lock(call) => (10, is_lock(call)),
        SmbCall::Cancel => (12, true),
        SmbCall::Echo => (13, true),
        SmbCall::OplockBreak(held) => (18, is_break(held)),
        SmbCall::Other => (14, true),
    }
}

/// The command of a reply, and whether the reply is that of a vector. Of CANCEL, too, the reply is not read.
fn meaning_of_reply(reply: &SmbReply, command: u16) -> (u16, bool) {
    match reply {
        SmbReply::Negotiate(reply) => (0, is_agreed(reply)),
        SmbReply::SessionSetup(reply) => (1, (reply.flags, reply.buffer) == (1, b"ab".as_slice())),
        SmbReply::Logoff => (2, true),
        SmbReply::TreeConnect(reply) => (3, is_tree(reply)),
        SmbReply::TreeDisconnect => (4, true),
        SmbReply::Create(reply) => (5, is_created(reply)),
        SmbReply::Close(reply) => (6, reply.flags == 1 && is_status(&reply.status)),
        SmbReply::Lock => (10, true),
        SmbReply::Echo => (13, true),
        SmbReply::OplockBreak(held) => (18, is_break(held)),
        SmbReply::Error => (10, false),
        SmbReply::Other => (command, command == 12 || command == 14),
    }
}

fn is_call(head: &SmbHead, call: &SmbCall) -> bool {
    (head.status, head.flags) == (0, 0) && meaning_of_call(call) == (head.command, true)
}

/// Whether a reply is that of a vector: of LOCK with the status that it waits, or at status 0.
fn is_reply(head: &SmbHead, reply: &SmbReply) -> bool {
    match reply {
        SmbReply::Error => (head.command, head.status, head.flags) == (10, 0x103, 3),
        _ => {
            (head.status, head.flags & 1) == (0, 1)
                && meaning_of_reply(reply, head.command) == (head.command, true)
        }
    }
}

/// Whether a message is the one of the vectors for its command.
pub(crate) fn is_meant(message: &SmbMessage) -> bool {
    match message {
        SmbMessage::Call(head, call) => is_head(head) && is_call(head, call),
        SmbMessage::Reply(head, reply) => is_head(head) && is_reply(head, reply),
        SmbMessage::Notice(notice) => is_notice(notice),
    }
}

// What C firmware calls, by way of wire_c: include/transfer.h declares it. Causes and counts are numbers here, since C takes them so.
ghost use Rattle.std.specs.Prelude.{◌≡◌};
ghost use Rattle.wire.specs.Firmware.{fault_of, LeastOr0};

use crate::frame::Frame;
use crate::words::Words;
use terms::least_numbers;

// The cause, 1 or 2, for which twelve bytes are no frame; 0 for neither, and 255 for any other length.
pub fn transfer_frame_fault(bytes: &[u8]) -> u8
    ensures { result ≡ fault_of bytes.now }
{
    let ([head, first, second], []) = bytes.as_chunks::<4>() else {
        return 255;
    };
    let words = Words {
        first: u32::from_be_bytes(*first),
        second: u32::from_be_bytes(*second),
    };
    let head = u32::from_be_bytes(*head);
    let read = Frame { head, words }.head();
    read.err().map_or(0, |fault| fault.cause.number())
}

// The least count of numbers for four terms, also above 65,536; 0 where one is out of range.
pub fn transfer_least_numbers(send_window: u32, receive_window: u32, lifetime: u32, gap: u32) -> u32
    ensures { LeastOr0 send_window receive_window lifetime gap result }
{
    least_numbers(send_window, receive_window, lifetime, gap).unwrap_or(0)
}

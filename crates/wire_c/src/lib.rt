// The functions that C firmware calls; include/transfer.h declares them. Each is wire's function of the same name: the kit builds a crate as a library or as an archive for C, not as both.
#![tactic(auto)]

ghost use Rattle.std.specs.Prelude.{◌≡◌};
ghost use Rattle.wire.specs.Firmware.{fault_of, LeastOr0};

// The cause, 1 or 2, for which twelve bytes are no frame; 0 for neither, and 255 for any other length.
#[unsafe(no_mangle)]
pub extern "C" fn transfer_frame_fault(bytes: &[u8]) -> u8
    ensures { result ≡ fault_of bytes.now }
{
    wire::transfer_frame_fault(bytes)
}

// The least count of numbers for four terms, also above 65,536; 0 where one is out of range.
#[unsafe(no_mangle)]
pub extern "C" fn transfer_least_numbers(
    send_window: u32,
    receive_window: u32,
    lifetime: u32,
    gap: u32,
) -> u32
    ensures { LeastOr0 send_window receive_window lifetime gap result }
{
    wire::transfer_least_numbers(send_window, receive_window, lifetime, gap)
}

//! The doors that the words ask for.

ghost use Rattle.std.specs.Prelude.{◌≡◌, ◌*◌, [], None, IfOk, IfErr, OnOk, OnErr, is_some, true, option_map, string_bytes};
ghost use Rattle.std.specs.Duration.{as_nanos};
ghost use Rattle.gateway_cli.specs.Entering.{AreEnteredBy, WantsMemory};

use doors::TcpDoors;
use gateway_run::{AskedServe, Command, WordsFault};
use gql_base::Text;
use std::alloc::{AllocError, Global};

// Lets a file ask for the end, where one is named.
fn let_end(
    alloc: Global,
    doors: &mut TcpDoors<HostRuntime>,
    file: &Option<Text>,
) -> Result<(), AllocError>
    requires plain { doors.old.stop_file ≡ None }
    ensures named { OnOk result (option_map string_bytes doors.new.stop_file ≡ file.now) }
    ensures waiting { doors.new.waiting ≡ doors.old.waiting }
    ensures rest { (doors.new.rt ≡ doors.old.rt) × (doors.new.patience ≡ doors.old.patience) × (doors.new.asked ≡ doors.old.asked)
        × (doors.new.running ≡ doors.old.running) × (doors.new.stopped ≡ doors.old.stopped) × (doors.new.faults ≡ doors.old.faults) }
    ensures wanting { OnErr result (is_some file.now ≡ true) }
{
    if let Some(file) = file {
        doors.stop_at(String::from_str(alloc, file.as_str())?);
    }
    Ok(())
}

// Lets so many clients wait for their next turn, where they are to take turns.
fn let_wait(doors: &mut TcpDoors<HostRuntime>, clients: Option<u32>)
    requires plain { doors.old.waiting ≡ None }
    ensures waiting { doors.new.waiting ≡ clients }
    ensures stop { doors.new.stop_file ≡ doors.old.stop_file }
    ensures rest { (doors.new.rt ≡ doors.old.rt) × (doors.new.patience ≡ doors.old.patience) × (doors.new.asked ≡ doors.old.asked)
        × (doors.new.running ≡ doors.old.running) × (doors.new.stopped ≡ doors.old.stopped) × (doors.new.faults ≡ doors.old.faults) }
{
    if let Some(clients) = clients {
        doors.let_wait(clients);
    }
}

// Doors for a gateway that is served so.
fn doors_to_serve(
    rt: HostRuntime,
    alloc: Global,
    asked: &AskedServe,
) -> Result<TcpDoors<HostRuntime>, AllocError>
    ensures over { IfOk result (λ doors. doors.rt ≡ rt) }
    ensures patience { IfOk result (λ doors. as_nanos doors.patience ≡ 30 * 1_000_000_000) }
    ensures new { IfOk result (λ doors. (doors.asked ≡ None) × (doors.running ≡ 0) × (doors.stopped.items ≡ []) × (doors.faults ≡ 0)) }
    ensures waiting { IfOk result (λ doors. doors.waiting ≡ asked.now.waiting) }
    ensures stop { IfOk result (λ doors. option_map string_bytes doors.stop_file ≡ asked.now.stop) }
    ensures wanting { OnErr result (is_some asked.now.stop ≡ true) }
{
    let mut doors = TcpDoors::new(rt, alloc);
    let_wait(&mut doors, asked.waiting);
    let_end(alloc, &mut doors, &asked.stop)?;
    Ok(doors)
}

/// Doors over TCP as words ask for them that came to this command, and plain ones where they came to none. None is started so far.
///
/// # Errors
///
/// `Memory` where there was not enough memory for the words, or for the name of the file that asks for the end.
pub(crate) fn doors_for(
    rt: HostRuntime,
    alloc: Global,
    command: &Result<Command, WordsFault>,
) -> Result<TcpDoors<HostRuntime>, WordsFault>
    ensures over { IfOk result (λ doors. doors.rt ≡ rt) }
    ensures patience { IfOk result (λ doors. as_nanos doors.patience ≡ 30 * 1_000_000_000) }
    ensures new { IfOk result (λ doors. (doors.asked ≡ None) × (doors.running ≡ 0) × (doors.stopped.items ≡ []) × (doors.faults ≡ 0)) }
    ensures entered { IfOk result (λ doors. AreEnteredBy command.now doors.waiting (option_map string_bytes doors.stop_file)) }
    ensures memory { IfErr result (λ fault. (fault ≡ WordsFault.Memory) × WantsMemory command.now) }
{
    match command {
        Ok(Command::Serve { asked }) => match doors_to_serve(rt, alloc, asked) {
            Ok(doors) => Ok(doors),
            Err(_) => Err(WordsFault::Memory),
        },
        Ok(_) | Err(WordsFault::Usage) => Ok(TcpDoors::new(rt, alloc)),
        Err(WordsFault::Memory) => Err(WordsFault::Memory),
    }
}

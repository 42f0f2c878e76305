// The entity, its ports, the pin map and the test access port.
ghost use Rattle.std.specs.Prelude.{◌≡◌, ◌++◌, OnOk, codes};
ghost use Rattle.bsdl_device.specs.Shape as words;
ghost use Rattle.bsdl_device.specs.Canonical as text_of;

use crate::text::put_all;
use bsdl_device::runs::written::put_number;
use bsdl_device::{DevPort, Device, PortMode, PortRange, Stop};
use texts::{OutOfMemory, Text};

fn mode_word(mode: PortMode) -> &'static [u8]
    ensures { result.now ≡ words.mode_word mode }
{
    match mode {
        PortMode::Input => b"in",
        PortMode::Output => b"out",
        PortMode::Inout => b"inout",
        PortMode::Linkage => b"linkage",
    }
}

#[tactic(auto, unfolding(bsdl_device::specs::Canonical::direction_text))]
fn direction(range: PortRange) -> &'static [u8]
    ensures { result.now ≡ text_of.direction_text range }
{
    if range.left <= range.right {
        b" to "
    } else {
        b" downto "
    }
}

#[tactic(auto, unfolding(bsdl_device::specs::Canonical::bounds_text))]
fn put_bounds(text: &mut Text, range: PortRange) -> Result<(), OutOfMemory>
    ensures { OnOk result (text.new ≡ text.old ++ text_of.bounds_text range) }
{
    put_number(text, range.left as u64)?;
    text.append(direction(range))?;
    put_number(text, range.right as u64)
}

#[tactic(auto, unfolding(bsdl_device::specs::Canonical::vector_text))]
fn put_vector(text: &mut Text) -> Result<(), OutOfMemory>
    ensures { OnOk result (text.new ≡ text.old ++ text_of.vector_text) }
{
    text.append(b"bit_vector(")
}

#[tactic(auto, unfolding(bsdl_device::specs::Canonical::type_text))]
fn put_type(text: &mut Text, range: Option<PortRange>) -> Result<(), OutOfMemory>
    ensures { OnOk result (text.new ≡ text.old ++ text_of.type_text range) }
{
    let Some(range) = range else {
        return text.append(b"bit");
    };
    put_vector(text)?;
    put_bounds(text, range)?;
    text.append(b")")
}

#[tactic(auto, unfolding(bsdl_device::specs::Canonical::named_text))]
fn put_named(text: &mut Text, name: &[u8], mode: &[u8]) -> Result<(), OutOfMemory>
    ensures { OnOk result (text.new ≡ text.old ++ text_of.named_text name.now mode.now) }
{
    put_all(text, &[b"    ", name, b" : ", mode, b" "])
}

#[tactic(auto, unfolding(bsdl_device::specs::Canonical::port_text))]
fn put_port(text: &mut Text, port: &DevPort) -> Result<(), OutOfMemory>
    ensures { OnOk result (text.new ≡ text.old ++ text_of.port_text port.now) }
{
    put_named(text, port.name.as_bytes(), mode_word(port.mode))?;
    put_type(text, port.range)
}

fn put_more_ports(text: &mut Text, ports: &[DevPort]) -> Result<(), OutOfMemory>
    ensures { OnOk result (text.new ≡ text.old
        ++ text_of.each_after (codes ";\n") text_of.port_text ports.now) }
{
    for port in ports {
        text.append(b";\n")?;
        put_port(text, port)?;
    }
    Ok(())
}

#[tactic(auto, unfolding(bsdl_device::specs::Canonical::ports_text))]
fn put_ports(text: &mut Text, ports: &[DevPort]) -> Result<(), OutOfMemory>
    ensures { OnOk result (text.new ≡ text.old ++ text_of.ports_text ports.now) }
{
    let [first, more @ ..] = ports else {
        return Ok(());
    };
    put_port(text, first)?;
    put_more_ports(text, more)
}

fn put_more_pins(text: &mut Text, pins: &[Text]) -> Result<(), OutOfMemory>
    ensures { OnOk result (text.new ≡ text.old
        ++ text_of.each_after (codes ",") (λ pin. pin) pins.now) }
{
    for pin in pins {
        text.append(b",")?;
        text.append(pin.as_bytes())?;
    }
    Ok(())
}

#[tactic(auto, unfolding(bsdl_device::specs::Canonical::pin_list_text))]
fn put_pin_list(text: &mut Text, pins: &[Text]) -> Result<(), OutOfMemory>
    ensures { OnOk result (text.new ≡ text.old ++ text_of.pin_list_text pins.now) }
{
    let [first, more @ ..] = pins else {
        return Ok(());
    };
    text.append(first.as_bytes())?;
    put_more_pins(text, more)
}

#[tactic(auto, unfolding(bsdl_device::specs::Canonical::pins_text))]
fn put_pins(text: &mut Text, range: Option<PortRange>, pins: &[Text]) -> Result<(), OutOfMemory>
    ensures { OnOk result (text.new ≡ text.old ++ text_of.pins_text range pins.now) }
{
    let Some(_) = range else {
        return put_pin_list(text, pins);
    };
    text.append(b"(")?;
    put_pin_list(text, pins)?;
    text.append(b")")
}

#[tactic(auto, unfolding(bsdl_device::specs::Canonical::pin_entry_text))]
fn put_pin_entry(text: &mut Text, port: &DevPort) -> Result<(), OutOfMemory>
    ensures { OnOk result (text.new ≡ text.old ++ text_of.pin_entry_text port.now) }
{
    text.append(port.name.as_bytes())?;
    text.append(b":")?;
    put_pins(text, port.range, port.pins.as_slice())
}

fn put_more_pin_entries(text: &mut Text, ports: &[DevPort]) -> Result<(), OutOfMemory>
    ensures { OnOk result (text.new ≡ text.old
        ++ text_of.each_after text_of.next_string text_of.pin_entry_text ports.now) }
{
    for port in ports {
        put_all(text, &[b",\" &\n    \""])?;
        put_pin_entry(text, port)?;
    }
    Ok(())
}

#[tactic(auto, unfolding(bsdl_device::specs::Canonical::pin_map_text))]
fn put_pin_map(text: &mut Text, ports: &[DevPort]) -> Result<(), OutOfMemory>
    ensures { OnOk result (text.new ≡ text.old ++ text_of.pin_map_text ports.now) }
{
    let [first, more @ ..] = ports else {
        return Ok(());
    };
    put_pin_entry(text, first)?;
    put_more_pin_entries(text, more)
}

#[tactic(auto, unfolding(bsdl_device::specs::Canonical::entity_text))]
fn put_entity(text: &mut Text, entity: &[u8], package: &[u8]) -> Result<(), OutOfMemory>
    ensures { OnOk result (text.new ≡ text.old ++ text_of.entity_text entity.now «package».now) }
{
    put_all(
        text,
        &[
            b"entity ",
            entity,
            b" is\n  generic (PHYSICAL_PIN_MAP : string := \"",
            package,
            b"\");\n  port (\n",
        ],
    )
}

#[tactic(auto, unfolding(bsdl_device::specs::Canonical::conformance_text))]
fn put_conformance(text: &mut Text, entity: &[u8], package: &[u8]) -> Result<(), OutOfMemory>
    ensures { OnOk result (text.new ≡ text.old ++ text_of.conformance_text entity.now «package».now) }
{
    put_all(
        text,
        &[
            b"\n  );\n  use STD_1149_1_2001.all;\n  attribute COMPONENT_CONFORMANCE of ",
            entity,
            b" : entity is \"STD_1149_1_2001\";\n  attribute PIN_MAP of ",
            entity,
            b" : entity is PHYSICAL_PIN_MAP;\n  constant ",
            package,
            b" : PIN_MAP_STRING :=\n    \"",
        ],
    )
}

/// Adds the entity up to the pin map.
#[tactic(auto, unfolding(bsdl_device::specs::Canonical::head_text))]
pub fn put_head(text: &mut Text, device: &Device) -> Result<(), OutOfMemory>
    ensures { OnOk result (text.new ≡ text.old ++ text_of.head_text device.now) }
{
    put_entity(text, device.entity.as_bytes(), device.package.as_bytes())?;
    put_ports(text, device.ports.as_slice())?;
    put_conformance(text, device.entity.as_bytes(), device.package.as_bytes())?;
    put_pin_map(text, device.ports.as_slice())
}

/// The name of the port at a place.
#[tactic(auto, unfolding(bsdl_device::specs::Canonical::port_name))]
pub fn port_name(ports: &[DevPort], place: u32) -> &[u8]
    ensures { result.now ≡ text_of.port_name ports.now place }
{
    match ports.get(place as usize) {
        Some(port) => port.name.as_bytes(),
        None => b"",
    }
}

fn stop_word(stop: Stop) -> &'static [u8]
    ensures { result.now ≡ words.stop_word stop }
{
    match stop {
        Stop::Low => b"LOW",
        Stop::Both => b"BOTH",
    }
}

#[tactic(auto, unfolding(bsdl_device::specs::Canonical::scan_in_text))]
fn put_scan_in(text: &mut Text, name: &[u8]) -> Result<(), OutOfMemory>
    ensures { OnOk result (text.new ≡ text.old ++ text_of.scan_in_text name.now) }
{
    put_all(
        text,
        &[
            b"\";\n  attribute TAP_SCAN_IN of ",
            name,
            b" : signal is true;\n",
        ],
    )
}

#[tactic(auto, unfolding(bsdl_device::specs::Canonical::scan_mode_text))]
fn put_scan_mode(text: &mut Text, name: &[u8]) -> Result<(), OutOfMemory>
    ensures { OnOk result (text.new ≡ text.old ++ text_of.scan_mode_text name.now) }
{
    put_all(
        text,
        &[
            b"  attribute TAP_SCAN_MODE of ",
            name,
            b" : signal is true;\n",
        ],
    )
}

#[tactic(auto, unfolding(bsdl_device::specs::Canonical::scan_out_text))]
fn put_scan_out(text: &mut Text, name: &[u8]) -> Result<(), OutOfMemory>
    ensures { OnOk result (text.new ≡ text.old ++ text_of.scan_out_text name.now) }
{
    put_all(
        text,
        &[
            b"  attribute TAP_SCAN_OUT of ",
            name,
            b" : signal is true;\n",
        ],
    )
}

#[tactic(auto, unfolding(bsdl_device::specs::Canonical::scan_reset_text))]
fn put_scan_reset(text: &mut Text, name: &[u8]) -> Result<(), OutOfMemory>
    ensures { OnOk result (text.new ≡ text.old ++ text_of.scan_reset_text name.now) }
{
    put_all(
        text,
        &[
            b"  attribute TAP_SCAN_RESET of ",
            name,
            b" : signal is true;\n",
        ],
    )
}

#[tactic(auto, unfolding(bsdl_device::specs::Canonical::scan_clock_text))]
fn put_scan_clock(
    text: &mut Text,
    name: &[u8],
    frequency: &[u8],
    stop: &[u8],
) -> Result<(), OutOfMemory>
    ensures { OnOk result (text.new ≡ text.old
        ++ text_of.scan_clock_text name.now frequency.now stop.now) }
{
    put_all(
        text,
        &[
            b"  attribute TAP_SCAN_CLOCK of ",
            name,
            b" : signal is (",
            frequency,
            b", ",
            stop,
            b");\n",
        ],
    )
}

/// Adds the attributes of the test access port.
#[tactic(auto, unfolding(bsdl_device::specs::Canonical::tap_text))]
pub fn put_tap(text: &mut Text, device: &Device) -> Result<(), OutOfMemory>
    ensures { OnOk result (text.new ≡ text.old ++ text_of.tap_text device.now) }
{
    let ports = device.ports.as_slice();
    put_scan_in(text, port_name(ports, device.tdi))?;
    put_scan_mode(text, port_name(ports, device.tms))?;
    put_scan_out(text, port_name(ports, device.tdo))?;
    put_scan_reset(text, port_name(ports, device.trst))?;
    put_scan_clock(
        text,
        port_name(ports, device.tck),
        device.clock.as_bytes(),
        stop_word(device.stop),
    )
}

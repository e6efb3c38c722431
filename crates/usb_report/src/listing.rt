//! The list of what a scene's devices are found to be, and of the drivers that have their interfaces.
ghost use Rattle.std.specs.Prelude.{◌≡◌, ◌<◌, ◌^◌, ◌++◌, OnOk, length, codes, decimal};
ghost use Rattle.std.specs.List.{flat_map};
ghost use Rattle.usb_types.specs.Codes.{code_text};
ghost use Rattle.usb_report.specs.Names.{device_name};
ghost use Rattle.usb_report.specs.Listing.{quad, desc_text, request_name, fault_text, driver_name, taken_text, class_name, class_text, face_text, found_text, list_text, bound_text};

use crate::names::push_device;
use usb_bind::{Bound, Driver};
use usb_ctrl::EnumFault;
use usb_desc::DescFault;
use usb_prepare::{Found, InterfaceFound, Taken};
use usb_scene::Scene;
use usb_text::{push_number, push_pairs};
use usb_types::{Buf, Code, Errno, Memory, classes, name_of, requests};

// A number of two bytes as four digits.
fn push_quad(report: &mut Buf, number: u16) -> Result<(), Memory>
    ensures { OnOk result (report.new ≡ report.old ++ quad number) }
{
    push_pairs(report, &number.to_be_bytes())
}

// A fault's name, and its number after a space.
fn push_at(report: &mut Buf, name: &[u8], at: usize) -> Result<(), Memory>
    ensures { OnOk result (report.new ≡ report.old ++ (name.now ++ decimal at)) }
{
    report.append(name)?;
    push_number(report, at as u64)
}

fn push_total(report: &mut Buf, said: u16, found: usize) -> Result<(), Memory>
    ensures { OnOk result (report.new ≡ report.old ++ (codes "TotalLength " ++ decimal said ++ (codes " " ++ decimal found))) }
{
    push_at(report, b"TotalLength ", said as usize)?;
    push_at(report, b" ", found)
}

// The name of a descriptor's fault with its numbers.
fn push_desc_fault(report: &mut Buf, fault: DescFault) -> Result<(), Memory>
    ensures { OnOk result (report.new ≡ report.old ++ desc_text fault) }
{
    match fault {
        DescFault::Short(at) => push_at(report, b"Short ", at),
        DescFault::BadLength(at) => push_at(report, b"BadLength ", at),
        DescFault::BadType(at) => push_at(report, b"BadType ", at),
        DescFault::TotalLength(said, found) => push_total(report, said, found),
        DescFault::EndpointWithoutInterface(at) => {
            push_at(report, b"EndpointWithoutInterface ", at)
        }
        DescFault::TwiceEndpoint(at) => push_at(report, b"TwiceEndpoint ", at),
        DescFault::Limit(at) => push_at(report, b"Limit ", at),
        DescFault::Memory => report.append(b"Memory"),
    }
}

fn request_name(request: u8) -> &'static str
    ensures { result.now ≡ request_name request }
{
    match name_of(&requests(), request as u32) {
        Some(name) => name,
        None => "-",
    }
}

fn push_status(report: &mut Buf, request: u8, errno: Errno) -> Result<(), Memory>
    ensures { OnOk result (report.new ≡ report.old ++ codes "Status " ++ request_name request ++ codes " " ++ code_text (Code.Fault errno)) }
{
    report.append(b"Status ")?;
    report.append(request_name(request).as_bytes())?;
    report.append(b" ")?;
    report.append(Code::Fault(errno).text().as_bytes())
}

// Why an enumeration ended.
fn push_fault(report: &mut Buf, fault: EnumFault) -> Result<(), Memory>
    ensures { OnOk result (report.new ≡ report.old ++ fault_text fault) }
{
    match fault {
        EnumFault::Status { request, errno } => push_status(report, request, errno),
        EnumFault::Descriptor(fault) => push_desc_fault(report, fault),
        EnumFault::Changed { .. } => report.append(b"Changed"),
        EnumFault::Memory => report.append(b"Memory"),
    }
}

// The kernel's name of a driver.
fn driver_name(driver: Driver) -> &'static str
    ensures { result.now ≡ driver_name driver }
{
    match driver {
        Driver::Keyboard => "usbkbd",
        Driver::Acm => "cdc_acm",
        Driver::Printer => "usblp",
    }
}

fn taken_text(taken: Taken) -> &'static str
    ensures { result.now ≡ taken_text taken }
{
    match taken {
        Taken::By(driver) => driver_name(driver),
        Taken::Full => "full",
        Taken::Busy => "busy",
        Taken::Failed => "fail",
        Taken::Nobody => "none",
    }
}

fn class_name(class: u8) -> &'static str
    ensures { result.now ≡ class_name class }
{
    match name_of(&classes(), class as u32) {
        Some(name) => name,
        None => "-",
    }
}

#[tactic(auto, unfolding(crate::specs::Listing::class_text))]
fn push_class(report: &mut Buf, face: &InterfaceFound) -> Result<(), Memory>
    ensures { OnOk result (report.new ≡ report.old ++ class_text face.now) }
{
    push_pairs(report, &[face.class])?;
    report.append(b"/")?;
    push_pairs(report, &[face.subclass])?;
    report.append(b"/")?;
    push_pairs(report, &[face.protocol])
}

// An interface's number and its class's name, each with the space after it.
fn push_face_name(report: &mut Buf, face: &InterfaceFound) -> Result<(), Memory>
    ensures { OnOk result (report.new ≡ report.old ++ decimal face.now.number ++ codes " " ++ class_name face.now.class ++ codes " ") }
{
    push_number(report, face.number as u64)?;
    report.append(b" ")?;
    report.append(class_name(face.class).as_bytes())?;
    report.append(b" ")
}

// The rest of the line: the class's numbers, and who has the interface.
fn push_face_taken(report: &mut Buf, face: &InterfaceFound) -> Result<(), Memory>
    ensures { OnOk result (report.new ≡ report.old ++ class_text face.now ++ codes " " ++ taken_text face.now.taken ++ codes "\n") }
{
    push_class(report, face)?;
    report.append(b" ")?;
    report.append(taken_text(face.taken).as_bytes())?;
    report.append(b"\n")
}

fn push_face(report: &mut Buf, face: &InterfaceFound) -> Result<(), Memory>
    ensures { OnOk result (report.new ≡ report.old ++ face_text face.now) }
{
    report.append(b"interface ")?;
    push_face_name(report, face)?;
    push_face_taken(report, face)
}

fn push_faces(report: &mut Buf, faces: &[InterfaceFound]) -> Result<(), Memory>
    ensures { OnOk result (report.new ≡ report.old ++ flat_map face_text faces.now) }
{
    for face in faces {
        push_face(report, face)?;
    }
    Ok(())
}

// `device NAME ` of a device of the scene.
fn push_head(report: &mut Buf, scene: &Scene, device: u32) -> Result<(), Memory>
    ensures { OnOk result (report.new ≡ report.old ++ codes "device " ++ device_name scene.now device ++ codes " ") }
{
    report.append(b"device ")?;
    push_device(report, scene, device)?;
    report.append(b" ")
}

fn push_ids(report: &mut Buf, vendor: u16, product: u16) -> Result<(), Memory>
    ensures { OnOk result (report.new ≡ report.old ++ quad vendor ++ codes ":" ++ quad product ++ codes "\n") }
{
    push_quad(report, vendor)?;
    report.append(b":")?;
    push_quad(report, product)?;
    report.append(b"\n")
}

fn push_faulty(report: &mut Buf, scene: &Scene, device: u32, fault: EnumFault) -> Result<(), Memory>
    ensures { OnOk result (report.new ≡ report.old ++ found_text (device_name scene.now device) (Found.Fault fault)) }
{
    push_head(report, scene, device)?;
    report.append(b"fault ")?;
    push_fault(report, fault)?;
    report.append(b"\n")
}

// The lines of a device.
fn push_found(report: &mut Buf, scene: &Scene, device: u32, found: &Found) -> Result<(), Memory>
    ensures { OnOk result (report.new ≡ report.old ++ found_text (device_name scene.now device) found.now) }
{
    match found {
        Found::Raw => Ok(()),
        Found::Attached {
            vendor,
            product,
            faces,
        } => {
            push_head(report, scene, device)?;
            push_ids(report, *vendor, *product)?;
            push_faces(report, faces.items())
        }
        Found::Fault(fault) => push_faulty(report, scene, device, *fault),
    }
}

/// Adds the lines of all devices, in scene order.
pub fn push_list(report: &mut Buf, scene: &Scene, found: &[Found]) -> Result<(), Memory>
    requires { length found.now < 2 ^ 32 }
    ensures { OnOk result (report.new ≡ report.old ++ list_text scene.now found.now) }
{
    for (device, one) in found.iter().enumerate() {
        push_found(report, scene, device as u32, one)?;
    }
    Ok(())
}

/// Adds the line of a binding.
pub(crate) fn push_bound(report: &mut Buf, scene: &Scene, bound: &Bound) -> Result<(), Memory>
    ensures { OnOk result (report.new ≡ report.old ++ bound_text scene.now bound.now) }
{
    report.append(b"driver ")?;
    push_device(report, scene, bound.device)?;
    report.append(b" ")?;
    push_number(report, bound.interface as u64)?;
    report.append(b" ")?;
    report.append(driver_name(bound.driver).as_bytes())?;
    report.append(b"\n")
}

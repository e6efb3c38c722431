//! The homes of a scene's own URBs.
ghost use Rattle.std.specs.Prelude.{◌≡◌, ◌≤◌, ◌<◌, ◌^◌, false, length, map, take, fold, IfOk, position};
ghost use Rattle.std.specs.List.{list_any};
ghost use Rattle.usb_machine.specs.History.{or_zero};
ghost use Rattle.usb_bind.specs.Pool.{taken};
ghost use Rattle.usb_scene.specs.declared.scene.SceneUrb.{SceneUrb};
ghost use Rattle.usb_scene.specs.WellFormed.{IsWellFormed};
ghost use Rattle.usb_prepare.specs.Ends.{is_at, shapes_of, firsts_of, home_at};

use crate::ends::Numbered;
use usb_bind::UrbPool;
use usb_machine::Shape;
use usb_scene::{Scene, SceneUrb};

// Whether the shape is that of the URB's endpoint.
fn is_home(shape: &Shape, urb: &SceneUrb) -> bool
    ensures { result ≡ is_at urb.now.device urb.now.address shape.now }
{
    shape.device == urb.device && shape.address == urb.address
}

// Where the URB's endpoint is among the shapes.
fn place_of_home(shapes: &[Shape], urb: &SceneUrb) -> Option<usize>
    ensures { result ≡ position (is_at urb.now.device urb.now.address) shapes.now }
{
    shapes.iter().position(|shape| is_home(shape, urb))
}

// The number of the URB's endpoint, which is not one of the first `start`.
fn home(shapes: &[Shape], start: usize, urb: &SceneUrb) -> Option<u32>
    requires few { length shapes.now < 2 ^ 31 }
    requires start { start ≤ length shapes.now }
    requires behind { list_any (is_at urb.now.device urb.now.address) (take start shapes.now) ≡ false }
    ensures { result ≡ position (is_at urb.now.device urb.now.address) shapes.now }
{
    match place_of_home(&shapes[start..], urb) {
        Some(n) => Some((start + n) as u32),
        None => None,
    }
}

/// The scene's own URBs take the first numbers, each with its home.
#[tactic(auto, unfolding(crate::specs::Ends::shapes_of))]
pub fn take_own(pool: &mut UrbPool, scene: &Scene, ends: &Numbered)
    requires good { IsWellFormed scene.now }
    requires shapes { ends.now.shapes ≡ shapes_of scene.now }
    requires firsts { ends.now.firsts ≡ firsts_of scene.now }
    ensures { pool.new ≡ fold taken pool.old (map (λ (u : SceneUrb). or_zero (home_at scene.now u)) scene.now.urbs) }
{
    let shapes = ends.shapes.items();
    let firsts = ends.firsts.items();
    for urb in scene.urbs.items() {
        let first = firsts[urb.device as usize] as usize;
        pool.take(home(shapes, first, urb).unwrap_or(0));
    }
}

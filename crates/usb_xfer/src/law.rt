//! The law that one reply more is one step more.
ghost use Rattle.std.specs.Prelude.{ℕ, ◌≡◌, ◌++◌, ◌∷◌, [], List};
ghost use Rattle.usb_machine.specs.declared.layout.Shape.{Shape};
ghost use Rattle.usb_machine.specs.declared.transfer.Transfer.{Transfer};
ghost use Rattle.usb_machine.specs.Shapes.{HasWindow};
ghost use Rattle.usb_xfer.specs.Replies.{Reply};
ghost use Rattle.usb_xfer.specs.Moved.{moved, IsOpen, IsLastStep, reply_moves, reply_step};

/// What a reply more does to a transfer that the replies before it moved is what all these replies do.
pub fn a_reply_more_is_one_step()
    ensures { (shape : Shape) (start : Transfer) (replies : List Reply) (r : Reply) → HasWindow start → IsOpen shape start replies
        → IsLastStep shape (moved shape start replies) (reply_moves shape r (moved shape start replies)) r (reply_step shape r (moved shape start replies)) start replies }
{}

ghost use Rattle.tca.specs.declared.status.Event.{Event};
ghost use Rattle.tca.specs.declared.status.SynchronousStatus.{SynchronousStatus};

use crate::Line;
use tca::status::{Event, SynchronousStatus};

// A line whose device is told, past the coax, what to post next. `eventful` and `ending` are what the telling
// of an event and of an end did to the line itself.
pub trait Tellable: Line {
    ghost eventful: { Self → Event → Self → Type 0 };

    ghost ending: { Self → SynchronousStatus → Self → Type 0 };

    fn tell_event(&mut self, event: Event)
        ensures { eventful self.old event self.new };

    fn tell_end(&mut self, end: SynchronousStatus)
        ensures { ending self.old end self.new };
}

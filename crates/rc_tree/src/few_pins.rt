//! The few pins of a net, which are looked through.
ghost use Rattle.std.specs.Prelude.{◌≡◌, ◌<◌, true, false, length, slice_get, Some, IfSome, IfNone};
ghost use Rattle.name_table.specs.NodeKeys.{among};
ghost use Rattle.rc_tree.specs.FewPins.{pins_of};

use crate::pin_names::PinName;
use name_table::NodeKey;
use std::marker::Model;

/// A driver and its sinks, which stand elsewhere. Contracts see the list of their nodes, the driver's first.
#[derive(Drop)]
pub struct FewPins<'p, 's> {
    driver: PinName<'p>,
    sinks: &'s [PinName<'p>],
}

impl<'p, 's> Model for FewPins<'p, 's> {
    ghost use Rattle.std.specs.Prelude.{List};
    ghost use Rattle.rc_tree.specs.Nodes.{Node};
    ghost use Rattle.rc_tree.specs.FewPins.{pins_of};

    ghost Value = { List Node };

    ghost view = { λ pins. pins_of pins.driver pins.sinks.now };
}

impl<'p, 's> FewPins<'p, 's> {
    /// These pins. Nothing is copied.
    pub fn new(driver: PinName<'p>, sinks: &'s [PinName<'p>]) -> FewPins<'p, 's>
        ensures { result ≡ pins_of driver.entry sinks.now }
    {
        FewPins { driver, sinks }
    }

    /// How many pins there are.
    pub fn len(&self) -> usize
        ensures { result ≡ length self.now }
    {
        self.sinks.len() + 1
    }

    // The key of a pin.
    #[inline]
    fn key(&self, place: usize) -> NodeKey<'p>
        requires { place < length self.now }
        ensures { slice_get self.now place ≡ Some result }
    {
        if place == 0 {
            self.driver.key()
        } else {
            self.sinks[place - 1].key()
        }
    }

    // Whether the pin at a place has this key.
    #[inline]
    fn stands_at(&self, place: usize, key: &NodeKey<'p>) -> bool
        ensures { result ≡ true → slice_get self.now place ≡ Some key.now }
    {
        place <= self.sinks.len() && *key == self.key(place)
    }

    /// The place of the pin that has this key, if there is one. It is looked for first where it is likely to stand.
    #[inline]
    pub fn find(&self, key: &NodeKey<'p>, near: usize) -> Option<usize>
        ensures found { IfSome result (λ place. slice_get self.now place ≡ Some key.now) }
        ensures absent { IfNone result (among key.now self.now ≡ false) }
    {
        if self.stands_at(near, key) {
            Some(near)
        } else {
            self.place_of(key)
        }
    }

    // The same where nothing is known of the place.
    fn place_of(&self, key: &NodeKey<'p>) -> Option<usize>
        ensures found { IfSome result (λ place. slice_get self.now place ≡ Some key.now) }
        ensures absent { IfNone result (among key.now self.now ≡ false) }
    {
        for place in 0..self.len() {
            if *key == self.key(place) {
                return Some(place);
            }
        }
        None
    }
}

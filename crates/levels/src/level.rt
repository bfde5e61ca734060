ghost use Rattle.std.specs.Prelude.{◌≡◌, ◌<◌, length};
ghost use Rattle.sheets.specs.Sheets.{model, found, opponents, Formed};
ghost use Rattle.levels.specs.Piles.{PileModel, ground, top, base, image, lift, imaged, lifted};

use refusals::Refusal;
use sets::ComponentSet;
use sheets::Sheet;

/// A sheet over a ground: it knows which component here each ground component has become, and which ground set a set here stands for.
pub trait Level {
    /// What the level means: the pile of which it is the top.
    ghost pile: { Self → PileModel };

    /// Its own sheet.
    fn sheet(&self) -> &Sheet
        ensures { model result.now ≡ top (pile self.now) };

    /// The sheet of the ground.
    fn ground(&self) -> &Sheet
        ensures { model result.now ≡ base (pile self.now) };

    /// The image of a number, whether or not it is a component of the ground.
    fn image_of(&self, component: usize) -> usize
        ensures { result ≡ image (pile self.now) component };

    /// The lift of a set, whether or not it is present here.
    fn lift_of(&self, set: ComponentSet) -> ComponentSet
        ensures { result ≡ lift (pile self.now) set };

    /// How many numbers its components have: all are below this.
    fn size(&self) -> usize
        ensures { result ≡ (top (pile self.now)).size }
    {
        self.sheet().size()
    }

    /// The components that are present.
    fn present(&self) -> ComponentSet
        ensures { result ≡ (top (pile self.now)).present }
    {
        self.sheet().present()
    }

    /// How many clauses there are.
    fn clause_count(&self) -> usize
        ensures { result ≡ length (top (pile self.now)).clauses }
    {
        self.sheet().clause_count()
    }

    /// The owner of the clause at a place, or no-clause.
    fn owner(&self, place: usize) -> Result<usize, Refusal>
        ensures { result ≡ found (top (pile self.now)) (λ c. c.owner) place }
    {
        self.sheet().owner(place)
    }

    /// The members of the clause at a place, or no-clause.
    fn members(&self, place: usize) -> Result<ComponentSet, Refusal>
        ensures { result ≡ found (top (pile self.now)) (λ c. c.members) place }
    {
        self.sheet().members(place)
    }

    /// What a component conflicts with, or no-component.
    fn conflicts(&self, component: usize) -> Result<ComponentSet, Refusal>
        ensures { result ≡ opponents (top (pile self.now)) component }
    {
        self.sheet().conflicts(component)
    }

    /// The image of a ground component, or no-component.
    fn image(&self, component: usize) -> Result<usize, Refusal>
        ensures { result ≡ imaged (pile self.now) component }
    {
        if !self.ground().present().contains(component) {
            return Err(Refusal::NoComponent);
        }
        Ok(self.image_of(component))
    }

    /// The ground set that a set of this level stands for, or no-component.
    fn lift(&self, set: ComponentSet) -> Result<ComponentSet, Refusal>
        ensures { result ≡ lifted (pile self.now) set }
    {
        if !set.is_subset(self.sheet().present()) {
            return Err(Refusal::NoComponent);
        }
        Ok(self.lift_of(set))
    }
}

/// A level on which the others rest: its sheet is the ground's, and images and lifts leave numbers and sets as they are.
pub trait Ground: Level {
    ghost alone: { (x : Self) → Self.pile x ≡ ground (top (Self.pile x)) };

    ghost formed: { (x : Self) → Formed (top (Self.pile x)) };
}

// What the units say of each name of external linkage.
ghost use Rattle.std.specs.Prelude.{◌≡◌, IfOk, OnOk, option_map, option_copied, map, is_some};
ghost use Rattle.c65_csem.specs.Views.{object_of, func_of};
ghost use Rattle.c65_init_join.specs.Items.{items_of};
ghost use Rattle.c65_init_join.specs.Tables as tables;
ghost use Rattle.c65_init_join.specs.Tables.{external_of, table_of, external_at, defined_at};
ghost use Rattle.c65_init_join.specs.Uses.{marks_of};

use crate::marks::{Marks, is_marked};
use crate::numbers::numbered;
use crate::unit::Unit;
use c65_base::Name;
use c65_csem::{Class, TFunc, TObject};
use std::alloc::{AllocError, Global};

/// An object or function of a unit, by its number.
#[derive(Clone, Copy, Debug)]
pub enum Item {
    Object(u32),
    Func(u32),
}

/// A declaration: its unit, and the item there.
#[derive(Clone, Copy, Debug)]
pub struct Place {
    pub unit: u32,
    pub item: Item,
}

/// How a declaration defines its name.
#[derive(Clone, Copy, Debug)]
pub enum Defines {
    Wholly,
    /// Without an initialiser, where no other does (C90 6.7.2).
    Tentatively,
    Nothing,
}

/// A name of external linkage: its declarations in the order of the units, which of them defines
/// it, whether another one does too, whether a tree uses it, and its item's number in the program.
/// A definition with an initialiser comes before one without.
#[derive(Drop)]
pub struct External {
    pub places: Vec<Place>,
    pub definition: Option<Place>,
    pub tentative: Option<Place>,
    pub twice: bool,
    pub is_used: bool,
    pub number: Option<u32>,
}

fn same_item(a: Item, b: Item) -> bool
    ensures { result ≡ tables.same_item a b }
{
    match (a, b) {
        (Item::Object(a), Item::Object(b)) => a == b,
        (Item::Func(a), Item::Func(b)) => a == b,
        _ => false,
    }
}

pub fn same_place(a: Place, b: Place) -> bool
    ensures { result ≡ tables.same_place a b }
{
    a.unit == b.unit && same_item(a.item, b.item)
}

impl External {
    /// The declaration that defines the name.
    pub fn defined(&self) -> Option<Place>
        ensures { result ≡ tables.defined (external_of self.now) }
    {
        match self.definition {
            Some(place) => Some(place),
            None => self.tentative,
        }
    }

    /// Enters a declaration.
    fn note(&mut self, place: Place, defines: Defines) -> Result<(), AllocError>
        ensures { OnOk result (external_of self.new ≡ tables.noted place defines (external_of self.old)) }
    {
        self.places.push(place)?;
        match defines {
            Defines::Wholly => {
                self.twice = self.twice || self.definition.is_some();
                self.definition = Some(place);
            }
            Defines::Tentatively => {
                if self.tentative.is_none() {
                    self.tentative = Some(place);
                }
            }
            Defines::Nothing => {}
        }
        Ok(())
    }
}

/// What the units say of each name, by its number, and the names that are declared with external
/// linkage, in the order of the units; in a unit its objects come before its functions.
#[derive(Drop)]
pub struct Table {
    pub externals: Vec<External>,
    pub order: Vec<Name>,
}

/// Whether an object has external linkage (C90 6.1.2.2).
pub fn is_external(object: &TObject) -> bool
    ensures { result ≡ tables.is_external object.now.class }
{
    match object.class {
        Class::External | Class::Tentative | Class::Declared => true,
        Class::Static | Class::Auto | Class::Register | Class::Fixed => false,
    }
}

fn object_defines(class: Class) -> Defines
    ensures { result ≡ tables.object_defines class }
{
    match class {
        Class::External => Defines::Wholly,
        Class::Tentative => Defines::Tentatively,
        _ => Defines::Nothing,
    }
}

fn func_defines(has_body: bool) -> Defines
    ensures { result ≡ tables.func_defines has_body }
{
    if has_body {
        Defines::Wholly
    } else {
        Defines::Nothing
    }
}

/// Enters a declaration of a name.
#[tactic(auto, using(crate::proofs::TableLaws::changed_set))]
fn note_at(
    externals: &mut Vec<External>,
    name: Name,
    place: Place,
    defines: Defines,
) -> Result<(), AllocError>
    ensures { OnOk result (map external_of externals.new.items ≡ tables.changed (tables.noted place defines) (map external_of externals.old.items) name.0) }
{
    let at = name.0 as usize;
    if at >= externals.len() {
        return Err(AllocError);
    }
    externals[at].note(place, defines)
}

impl Table {
    /// For so many names, none of them declared.
    pub fn new(alloc: Global, names: usize) -> Result<Table, AllocError>
        ensures { IfOk result (λ t. table_of t ≡ tables.no_declarations names) }
    {
        let mut externals = Vec::new(alloc);
        for _name in 0..names {
            externals.push(External {
                places: Vec::new(alloc),
                definition: None,
                tentative: None,
                twice: false,
                is_used: false,
                number: None,
            })?;
        }
        Ok(Table {
            externals,
            order: Vec::new(alloc),
        })
    }

    /// What the units say of a name.
    pub fn get(&self, name: Name) -> Option<&External>
        ensures { option_map external_of (option_copied result) ≡ external_at (table_of self.now) name }
    {
        self.externals.get(name.0 as usize)
    }

    /// The declaration that defines a name.
    pub fn defined(&self, name: Name) -> Option<Place>
        ensures { result ≡ defined_at (table_of self.now) name }
    {
        match self.get(name) {
            Some(external) => external.defined(),
            None => None,
        }
    }

    /// The same of what may have no name.
    pub fn place_of(&self, name: Option<Name>) -> Option<Place>
        ensures { result ≡ tables.place_of (table_of self.now) name }
    {
        match name {
            Some(name) => self.defined(name),
            None => None,
        }
    }

    /// The number of a name's item.
    pub fn number(&self, name: Name) -> Option<u32>
        ensures { result ≡ tables.number_at (table_of self.now) name }
    {
        match self.get(name) {
            Some(external) => external.number,
            None => None,
        }
    }

    /// The same of what may have no name.
    pub fn number_of(&self, name: Option<Name>) -> Option<u32>
        ensures { result ≡ tables.number_of (table_of self.now) name }
    {
        match name {
            Some(name) => self.number(name),
            None => None,
        }
    }

    /// Enters the number of a name's item.
    #[tactic(auto, using(crate::proofs::TableLaws::changed_set, crate::proofs::TableLaws::changed_past))]
    pub fn set_number(&mut self, name: Name, number: u32)
        ensures { table_of self.new ≡ tables.with_number (table_of self.old) name number }
    {
        let at = name.0 as usize;
        if at < self.externals.len() {
            self.externals[at].number = Some(number);
        }
    }

    /// Enters that a name is used.
    #[tactic(auto, using(crate::proofs::TableLaws::changed_set, crate::proofs::TableLaws::changed_past))]
    fn use_name(&mut self, name: Name)
        ensures { table_of self.new ≡ tables.with_use (table_of self.old) name }
    {
        let at = name.0 as usize;
        if at < self.externals.len() {
            self.externals[at].is_used = true;
        }
    }

    /// Whether a name was not declared so far.
    fn is_first(&self, name: Name) -> bool
        ensures { result ≡ tables.is_first (external_at (table_of self.now) name) }
    {
        match self.get(name) {
            Some(external) => external.places.is_empty(),
            None => false,
        }
    }

    /// Enters a declaration.
    fn enter(&mut self, name: Name, place: Place, defines: Defines) -> Result<(), AllocError>
        ensures { OnOk result (table_of self.new ≡ tables.entered (table_of self.old) (record { name = name; place = place; defines = defines })) }
    {
        if self.is_first(name) {
            self.order.push(name)?;
        }
        note_at(&mut self.externals, name, place, defines)
    }

    fn enter_object(&mut self, object: &TObject, place: Place) -> Result<(), AllocError>
        ensures { OnOk result (table_of self.new ≡ tables.all_entered (table_of self.old) (tables.object_at place (object_of object.now))) }
    {
        if !is_external(object) {
            return Ok(());
        }
        match object.name {
            Some(name) => self.enter(name, place, object_defines(object.class)),
            None => Ok(()),
        }
    }

    fn enter_func(&mut self, func: &TFunc, place: Place) -> Result<(), AllocError>
        ensures { OnOk result (table_of self.new ≡ tables.all_entered (table_of self.old) (tables.func_at place (func_of func.now))) }
    {
        if !func.external {
            return Ok(());
        }
        self.enter(func.name, place, func_defines(func.body.is_some()))
    }

    /// Enters the declarations of a unit's objects.
    #[tactic(auto, using(crate::proofs::TableLaws::entered_append))]
    fn enter_objects(&mut self, unit: u32, objects: &[TObject]) -> Result<(), AllocError>
        ensures { OnOk result (table_of self.new ≡ tables.all_entered (table_of self.old) (tables.objects_declared unit 0 (map object_of objects.now))) }
    {
        for (i, object) in objects.iter().enumerate() {
            let item = Item::Object(numbered(i)?);
            self.enter_object(object, Place { unit, item })?;
        }
        Ok(())
    }

    /// Enters the declarations of a unit's functions.
    #[tactic(auto, using(crate::proofs::TableLaws::entered_append))]
    fn enter_funcs(&mut self, unit: u32, funcs: &[TFunc]) -> Result<(), AllocError>
        ensures { OnOk result (table_of self.new ≡ tables.all_entered (table_of self.old) (tables.funcs_declared unit 0 (map func_of funcs.now))) }
    {
        for (i, func) in funcs.iter().enumerate() {
            let item = Item::Func(numbered(i)?);
            self.enter_func(func, Place { unit, item })?;
        }
        Ok(())
    }

    /// Enters the declarations of a unit.
    #[tactic(auto, using(crate::proofs::TableLaws::entered_append))]
    fn enter_unit(&mut self, number: u32, unit: &Unit) -> Result<(), AllocError>
        ensures { OnOk result (table_of self.new ≡ tables.all_entered (table_of self.old) (tables.unit_declared number (items_of unit.now))) }
    {
        self.enter_objects(number, &unit.objects)?;
        self.enter_funcs(number, &unit.funcs)
    }

    /// Enters the declarations of all units.
    fn enter_units(&mut self, units: &[Unit]) -> Result<(), AllocError>
        ensures { OnOk result (table_of self.new ≡ tables.all_entered (table_of self.old) (tables.all_declared 0 (map items_of units.now))) }
    {
        for (i, unit) in units.iter().enumerate() {
            let number = numbered(i)?;
            self.enter_unit(number, unit)?;
        }
        Ok(())
    }

    /// What units say of so many names.
    pub fn of_units(alloc: Global, units: &[Unit], names: usize) -> Result<Table, AllocError>
        ensures { IfOk result (λ t. table_of t ≡ tables.declared_by names (map items_of units.now)) }
    {
        let mut table = Table::new(alloc, names)?;
        table.enter_units(units)?;
        Ok(table)
    }

    /// Enters whether an object's name is used.
    fn use_object(&mut self, name: Option<Name>, is_used: bool)
        ensures { table_of self.new ≡ tables.used_if is_used (table_of self.old) name }
    {
        if let Some(name) = name {
            if is_used {
                self.use_name(name);
            }
        }
    }

    /// Enters which names of objects are used.
    fn use_objects(&mut self, objects: &[TObject], marks: &[bool])
        ensures { table_of self.new ≡ tables.objects_used marks.now 0 (map object_of objects.now) (table_of self.old) }
    {
        for (i, object) in objects.iter().enumerate() {
            self.use_object(object.name, is_external(object) && is_marked(marks, i));
        }
    }

    /// Enters which names of functions are used.
    fn use_funcs(&mut self, funcs: &[TFunc], marks: &[bool])
        ensures { table_of self.new ≡ tables.funcs_used marks.now 0 (map func_of funcs.now) (table_of self.old) }
    {
        for (i, func) in funcs.iter().enumerate() {
            if func.external && is_marked(marks, i) {
                self.use_name(func.name);
            }
        }
    }

    /// Enters which names the trees of a unit use.
    pub fn enter_uses(&mut self, unit: &Unit, marks: &Marks)
        ensures { table_of self.new ≡ tables.unit_used (items_of unit.now) (marks_of marks.now) (table_of self.old) }
    {
        self.use_objects(&unit.objects, &marks.objects);
        self.use_funcs(&unit.funcs, &marks.funcs);
    }
}

//! What is found among the packages of all files by its name: packages, types, implementations and ports.
ghost use Rattle.std.specs.Prelude.{◌≡◌, ◌++◌, IfOk, OnOk, position, slice_get};
ghost use Rattle.ag_names.specs.Categories.{number_of};
ghost use Rattle.ag_names.specs.Found.{is_type, is_implementation, is_package, may_use, own_type, named_type};
ghost use Rattle.ag_names.specs.Keys.{FindsAs, use_row, port_row, type_key, implementation_key, declared_key, implemented_key, package_entries, use_entries, type_entries, implementation_entries, port_entries};
ghost use Rattle.ag_names.specs.Placed.{types, implementations, is_set_aside};
ghost use Rattle.ag_names.specs.Tables.{port_position, may_package_use};

use crate::placed::{ImplementationAt, TypeAt, files_set_aside, implementations, types};
use crate::table::{Entry, Key, Table};
use ag_aadl::packages::{Body, Category, Frame, Package};
use ag_base::OutOfMemory;
use ag_terms::Path;
use std::alloc::Global;
use std::collections::BTreeSet;
use std::marker::Model;

/// A type as a use names it: its package, its category and its name.
#[derive(Drop)]
pub struct TypeName<'a> {
    package: &'a [u8],
    category: Category,
    name: &'a [u8],
}

impl<'a> Model for TypeName<'a> {
    ghost use Rattle.ag_names.specs.Found.{TypeName};

    ghost Value = { TypeName };

    ghost view = { λ n. record { «package» = n.«package».now; category = n.category; name = n.name.now } };
}

impl<'a> TypeName<'a> {
    /// The type of an implementation.
    pub fn own(package: &'a Package, body: &'a Body) -> TypeName<'a>
        ensures { result ≡ own_type «package».now body.now }
    {
        TypeName {
            package: package.name.text.as_bytes(),
            category: body.category,
            name: body.frame.text.as_bytes(),
        }
    }

    /// The type that a subcomponent of this category in a package names.
    pub fn named(package: &'a Package, category: Category, path: &'a Path) -> TypeName<'a>
        ensures { result ≡ named_type «package».now category path.now }
    {
        TypeName {
            package: match &path.package {
                None => package.name.text.as_bytes(),
                Some(owner) => owner.text.as_bytes(),
            },
            category,
            name: path.name.text.as_bytes(),
        }
    }

    fn key(&self) -> Key<'a>
        ensures { result ≡ type_key self.now }
    {
        self.implementation_key(&[])
    }

    fn implementation_key(&self, name: &'a [u8]) -> Key<'a>
        ensures { result ≡ implementation_key self.now name.now }
    {
        Key {
            number: number_of(self.category),
            name: self.name,
            owner: self.package,
            second: name,
        }
    }
}

/// The position of a category in their order.
fn number_of(category: Category) -> usize
    ensures { result ≡ number_of category }
{
    match category {
        Category::System => 0,
        Category::Process => 1,
        Category::Thread => 2,
        Category::Device => 3,
        Category::Abstract => 4,
    }
}

/// The packages of all files, with tables for what is looked up among them. It is seen as their list.
#[derive(Drop)]
pub struct Index<'a> {
    packages: &'a [Package],
    /// The files that have the predeclared types, whose declarations are left out.
    aside: BTreeSet<u32>,
    types: Vec<TypeAt<'a>>,
    implementations: Vec<ImplementationAt<'a>>,
    /// All names of packages.
    names: Table<'a>,
    /// For each package, by its position, the names of those that it may use.
    uses: Table<'a>,
    named: Table<'a>,
    implemented: Table<'a>,
    /// For each type, by its number, the positions of its ports by their names.
    ports: Table<'a>,
}

impl<'a> Model for Index<'a> {
    ghost use Rattle.std.specs.Prelude.{List};
    ghost use Rattle.ag_aadl.specs.declared.packages.Package.{Package};
    ghost use Rattle.ag_names.specs.Keys.{AreTables};
    ghost use Rattle.ag_names.specs.Tables.{AreSetAside};

    ghost Value = { List Package };

    ghost view = { λ t. t.packages.now };

    ghost invariant = { λ t. AreSetAside t.packages.now t.aside
        × AreTables t.packages.now t.types.items t.implementations.items t.names t.uses t.named t.implemented t.ports };
}

impl<'a> Index<'a> {
    pub fn make(alloc: Global, packages: &'a [Package]) -> Result<Index<'a>, OutOfMemory>
        ensures { IfOk result (λ t. t ≡ packages.now) }
    {
        let aside = files_set_aside(alloc, packages)?;
        let types = types(alloc, packages, &aside)?;
        let implementations = implementations(alloc, packages, &aside)?;
        let named = type_table(alloc, types.as_slice())?;
        let implemented = implementation_table(alloc, implementations.as_slice())?;
        let ports = port_table(alloc, types.as_slice())?;
        Ok(Index {
            packages,
            aside,
            types,
            implementations,
            names: package_table(alloc, packages)?,
            uses: use_table(alloc, packages)?,
            named,
            implemented,
            ports,
        })
    }

    pub fn packages(&self) -> &'a [Package]
        ensures { result.now ≡ self.now }
    {
        self.packages
    }

    /// Whether the declarations of a file are left out.
    pub fn is_set_aside(&self, file: u32) -> bool
        ensures { result ≡ is_set_aside self.now file }
    {
        self.aside.contains(&file)
    }

    /// All types, in their order.
    pub fn types(&self) -> &[TypeAt<'a>]
        ensures { result.now ≡ types self.now }
    {
        self.types.as_slice()
    }

    /// All implementations, in their order.
    pub fn implementations(&self) -> &[ImplementationAt<'a>]
        ensures { result.now ≡ implementations self.now }
    {
        self.implementations.as_slice()
    }

    /// Whether some file has a package of that name.
    pub fn is_package(&self, name: &'a [u8]) -> bool
        ensures { result ≡ is_package self.now name.now }
    {
        self.names.find(&Key::name(0, name)).is_some()
    }

    /// Whether the package at a position may use one of that name.
    pub fn may_use(&self, package: usize, name: &'a [u8]) -> bool
        ensures { result ≡ may_package_use (slice_get self.now «package») name.now }
    {
        self.uses.find(&Key::name(package, name)).is_some()
    }

    /// The number of the first type so named.
    pub fn type_number(&self, name: &TypeName<'a>) -> Option<usize>
        ensures { result ≡ position (is_type name.now) (types self.now) }
    {
        self.named.find(&name.key())
    }

    /// The number of the first implementation of that name and of a type so named.
    pub fn implementation_number(&self, of: &TypeName<'a>, name: &'a [u8]) -> Option<usize>
        ensures { result ≡ position (is_implementation of.now name.now) (implementations self.now) }
    {
        self.implemented.find(&of.implementation_key(name))
    }

    /// The position of the first port of that name of the type with a number.
    pub fn port_position(&self, number: usize, name: &'a [u8]) -> Option<usize>
        ensures { result ≡ port_position (slice_get (types self.now) number) name.now }
    {
        self.ports.find(&Key::name(number, name))
    }
}

// The names of all packages.
#[tactic(auto, using(crate::proofs::Entries::entries_more))]
fn package_table<'a>(alloc: Global, packages: &'a [Package]) -> Result<Table<'a>, OutOfMemory>
    ensures { IfOk result (FindsAs (package_entries packages.now)) }
{
    let mut entries = Vec::new(alloc);
    for (at, package) in packages.iter().enumerate() {
        let key = Key::name(0, package.name.text.as_bytes());
        entries.push(Entry { key, at })?;
    }
    Table::make(entries)
}

// For each package the names of those that it may use.
#[tactic(auto, using(crate::proofs::Entries::rows_more))]
fn use_table<'a>(alloc: Global, packages: &'a [Package]) -> Result<Table<'a>, OutOfMemory>
    ensures { IfOk result (FindsAs (use_entries packages.now)) }
{
    let mut entries = Vec::new(alloc);
    for (number, package) in packages.iter().enumerate() {
        push_uses(&mut entries, number, package)?;
    }
    Table::make(entries)
}

#[tactic(auto, using(crate::proofs::Entries::entries_more))]
fn push_uses<'a>(
    entries: &mut Vec<Entry<'a>>,
    number: usize,
    package: &'a Package,
) -> Result<(), OutOfMemory>
    ensures { OnOk result (entries.new.items ≡ entries.old.items ++ use_row number «package».now) }
{
    let key = Key::name(number, package.name.text.as_bytes());
    entries.push(Entry { key, at: 0 })?;
    for (at, import) in package.imports.as_slice().iter().enumerate() {
        let key = Key::name(number, import.text.as_bytes());
        entries.push(Entry { key, at: at + 1 })?;
    }
    Ok(())
}

// The types by their names.
#[tactic(auto, using(crate::proofs::Entries::entries_more))]
fn type_table<'a>(alloc: Global, types: &[TypeAt<'a>]) -> Result<Table<'a>, OutOfMemory>
    ensures { IfOk result (FindsAs (type_entries types.now)) }
{
    let mut entries = Vec::new(alloc);
    for (at, entry) in types.iter().enumerate() {
        entries.push(Entry {
            key: declared_key(entry),
            at,
        })?;
    }
    Table::make(entries)
}

fn declared_key<'a>(entry: &TypeAt<'a>) -> Key<'a>
    ensures { result ≡ declared_key entry.now }
{
    let package: &'a Package = entry.owner;
    let frame: &'a Frame = entry.frame;
    Key {
        number: number_of(frame.category),
        name: frame.name.text.as_bytes(),
        owner: package.name.text.as_bytes(),
        second: &[],
    }
}

// The implementations by their names.
#[tactic(auto, using(crate::proofs::Entries::entries_more))]
fn implementation_table<'a>(
    alloc: Global,
    implementations: &[ImplementationAt<'a>],
) -> Result<Table<'a>, OutOfMemory>
    ensures { IfOk result (FindsAs (implementation_entries implementations.now)) }
{
    let mut entries = Vec::new(alloc);
    for (at, entry) in implementations.iter().enumerate() {
        entries.push(Entry {
            key: implemented_key(entry),
            at,
        })?;
    }
    Table::make(entries)
}

fn implemented_key<'a>(entry: &ImplementationAt<'a>) -> Key<'a>
    ensures { result ≡ implemented_key entry.now }
{
    let body: &'a Body = entry.body;
    TypeName::own(entry.owner, body).implementation_key(body.name.text.as_bytes())
}

// The ports of all types by their names.
#[tactic(auto, using(crate::proofs::Entries::rows_more))]
fn port_table<'a>(alloc: Global, types: &[TypeAt<'a>]) -> Result<Table<'a>, OutOfMemory>
    ensures { IfOk result (FindsAs (port_entries types.now)) }
{
    let mut entries = Vec::new(alloc);
    for (number, entry) in types.iter().enumerate() {
        push_ports(&mut entries, number, entry)?;
    }
    Table::make(entries)
}

#[tactic(auto, using(crate::proofs::Entries::entries_more))]
fn push_ports<'a>(
    entries: &mut Vec<Entry<'a>>,
    number: usize,
    entry: &TypeAt<'a>,
) -> Result<(), OutOfMemory>
    ensures { OnOk result (entries.new.items ≡ entries.old.items ++ port_row number entry.now) }
{
    let frame: &'a Frame = entry.frame;
    for (at, port) in frame.ports.as_slice().iter().enumerate() {
        let key = Key::name(number, port.name.text.as_bytes());
        entries.push(Entry { key, at })?;
    }
    Ok(())
}

//! The parser: one step for each lexeme, over a stack of open expressions.
ghost use Rattle.std.specs.Prelude.{◌≡◌, [], false, IfOk, reverse};
ghost use Rattle.session_grammar.specs.Grammar.{component as component_of, place_of};
ghost use Rattle.session_grammar.specs.ParserSteps.{state_with, goes, end_of, and_then, empty_stack, to, enter, put, fresh, next_tensor as level_behind_hash, next_part as level_behind_sign, mapped as mapped_value, close_step, close_in, comma_step, comma_in, equals_step, after_step, operand_step, start_step, basis_step, item_step, list_ends, list_step, behind_step, opens_step, count_step, counted_step, component_step, components_step, through_step, passed_step, inner_step, word_step, first_step, step as step_of, statement_of, end_below, inner_end, finish as statement_at_end};

use crate::state::{Base, Call, Level, Listing, Map, Mode, Stack, discard};
use crate::{BasisList, Expr, Place, Statement};
use basis_names::BasisId;
use hopf_num::OutOfMemory;
use session_tokens::Lexeme;
use sqlite_items::{Boxed, Items};
use std::alloc::Global;
use std::mem;

// The number of a component; past 32 bits it is the last one of them.
fn component(number: u128) -> u32
    ensures { result ≡ component_of number }
{
    if number < u32::MAX as u128 {
        number as u32
    } else {
        u32::MAX
    }
}

// The component that a call names.
fn place(number: Option<u128>) -> Place
    ensures { result ≡ place_of number }
{
    match number {
        None => Place::Only,
        Some(number) => Place::At(component(number)),
    }
}

// The value of the call of a map.
fn mapped(map: Map, value: Boxed<Expr>, number: Option<u128>) -> Expr
    ensures { result ≡ mapped_value map value number }
{
    let at = place(number);
    match map {
        Map::Convert(to) => Expr::Convert { to, value, at },
        Map::Linear(map) => Expr::Apply { map, value, at },
    }
}

// The statement of a sum outside all brackets.
fn statement(base: Base, value: Expr) -> Statement
    ensures { result ≡ statement_of base value }
{
    match base {
        Base::Plain => Statement::Print(value),
        Base::Assigned(name) => Statement::Assign { name, value },
        Base::Right(left) => Statement::Equal(left, value),
    }
}

impl Stack {
    /// The stack of a statement in which nothing was read. It takes no memory.
    pub fn new(alloc: Global, base: Base) -> Stack
        ensures { result ≡ empty_stack base }
    {
        Stack {
            base,
            below: Items::new(alloc),
            level: Level::fresh(alloc, false),
        }
    }

    // An operand was read.
    fn put(&mut self, value: Expr) -> Result<Option<Mode>, OutOfMemory>
        ensures { IfOk result (λ o. goes self.new o ≡ put self.old.base value (reverse self.old.below) self.old.level) }
    {
        self.level.push(value)?;
        Ok(Some(Mode::After))
    }

    // A bracket was opened.
    fn enter(&mut self, alloc: Global, call: Call) -> Result<Option<Mode>, OutOfMemory>
        ensures { IfOk result (λ o. goes self.new o ≡ enter self.old.base call (reverse self.old.below) self.old.level) }
    {
        self.level.call = call;
        let level = mem::replace(&mut self.level, Level::fresh(alloc, false));
        self.below.push(level)?;
        Ok(Some(Mode::Start))
    }

    // The bracket of a call was closed behind its value.
    fn close_call(
        &mut self,
        alloc: Global,
        call: Call,
        value: Expr,
    ) -> Result<Option<Mode>, OutOfMemory>
        ensures { IfOk result (λ o. goes self.new o ≡ close_in self.old.base call (reverse self.old.below) self.old.level value) }
    {
        match call {
            Call::Group => self.put(value),
            Call::Mapped(map) => self.put(mapped(map, Boxed::new(alloc, value)?, None)),
            Call::Second(first) => self.put(Expr::Pair(first, Boxed::new(alloc, value)?)),
            Call::First | Call::Along => Ok(None),
        }
    }

    // A comma was read behind a value in the bracket of a call.
    fn comma_in_call(
        &mut self,
        alloc: Global,
        call: Call,
        value: Expr,
    ) -> Result<Option<Mode>, OutOfMemory>
        ensures { IfOk result (λ o. goes self.new o ≡ comma_in self.old.base call (reverse self.old.below) self.old.level value) }
    {
        match call {
            Call::Mapped(map) => Ok(Some(Mode::Count(map, Boxed::new(alloc, value)?))),
            Call::First => self.enter(alloc, Call::Second(Boxed::new(alloc, value)?)),
            Call::Along => Ok(Some(Mode::Component(Boxed::new(alloc, value)?))),
            Call::Group | Call::Second(_) => Ok(None),
        }
    }

    // A closing bracket was read behind an operand.
    fn close(&mut self, alloc: Global) -> Result<Option<Mode>, OutOfMemory>
        ensures { IfOk result (λ o. goes self.new o ≡ close_step self.old.base (reverse self.old.below) self.old.level) }
    {
        match self.below.pop() {
            None => Ok(None),
            Some(outer) => {
                let value = self.level.take_value(alloc)?;
                self.level = outer;
                let call = mem::replace(&mut self.level.call, Call::Group);
                self.close_call(alloc, call, value)
            }
        }
    }

    // A comma was read behind an operand.
    fn comma(&mut self, alloc: Global) -> Result<Option<Mode>, OutOfMemory>
        ensures { IfOk result (λ o. goes self.new o ≡ comma_step self.old.base (reverse self.old.below) self.old.level) }
    {
        match self.below.pop() {
            None => Ok(None),
            Some(outer) => {
                let value = self.level.take_value(alloc)?;
                self.level = outer;
                let call = mem::replace(&mut self.level.call, Call::Group);
                self.comma_in_call(alloc, call, value)
            }
        }
    }

    // `==` was read behind an operand.
    fn equals(&mut self, alloc: Global) -> Result<Option<Mode>, OutOfMemory>
        ensures { IfOk result (λ o. goes self.new o ≡ equals_step self.old.base (reverse self.old.below) self.old.level) }
    {
        match &self.base {
            Base::Plain => {
                if let Some(_) = self.below.pop() {
                    return Ok(None);
                }
                let value = self.level.take_value(alloc)?;
                self.base = Base::Right(value);
                self.level = Level::fresh(alloc, false);
                Ok(Some(Mode::Start))
            }
            _ => Ok(None),
        }
    }

    // `*` or `/` was read behind an operand.
    fn next_factor(&mut self, divides: bool) -> Option<Mode>
        ensures { goes self.new result ≡ to self.old.base Mode.Operand (reverse self.old.below) (record self.old.level { divides = divides }) }
    {
        self.level.divides = divides;
        Some(Mode::Operand)
    }

    // `#` was read behind an operand.
    fn next_tensor(&mut self, alloc: Global) -> Result<Option<Mode>, OutOfMemory>
        ensures { IfOk result (λ o. goes self.new o ≡ to self.old.base Mode.Operand (reverse self.old.below) (level_behind_hash self.old.level)) }
    {
        self.level.next_tensor(alloc)?;
        Ok(Some(Mode::Operand))
    }

    // `+` or `-` was read behind an operand.
    fn next_part(&mut self, alloc: Global, is_minus: bool) -> Result<Option<Mode>, OutOfMemory>
        ensures { IfOk result (λ o. goes self.new o ≡ to self.old.base Mode.Operand (reverse self.old.below) (level_behind_sign is_minus self.old.level)) }
    {
        self.level.next_part(alloc, is_minus)?;
        Ok(Some(Mode::Operand))
    }

    // The text ends behind an operand.
    fn end(&mut self, alloc: Global) -> Result<Option<Statement>, OutOfMemory>
        ensures { IfOk result (λ o. o ≡ end_below self.old.base (reverse self.old.below) self.old.level) }
    {
        if let Some(_) = self.below.pop() {
            return Ok(None);
        }
        let value = self.level.take_value(alloc)?;
        let base = mem::replace(&mut self.base, Base::Plain);
        Ok(Some(statement(base, value)))
    }

    // Behind an operand.
    fn after(&mut self, alloc: Global, lexeme: Lexeme) -> Result<Option<Mode>, OutOfMemory>
        ensures { IfOk result (λ o. goes self.new o ≡ after_step self.old.base (reverse self.old.below) self.old.level lexeme) }
    {
        match lexeme {
            Lexeme::Times => Ok(self.next_factor(false)),
            Lexeme::Over => Ok(self.next_factor(true)),
            Lexeme::Hash => self.next_tensor(alloc),
            Lexeme::Plus => self.next_part(alloc, false),
            Lexeme::Minus => self.next_part(alloc, true),
            Lexeme::Close => self.close(alloc),
            Lexeme::Comma => self.comma(alloc),
            Lexeme::Equals => self.equals(alloc),
            _ => Ok(None),
        }
    }

    // At an operand.
    fn operand(&mut self, alloc: Global, lexeme: Lexeme) -> Result<Option<Mode>, OutOfMemory>
        ensures { IfOk result (λ o. goes self.new o ≡ operand_step self.old.base (reverse self.old.below) self.old.level lexeme) }
    {
        match lexeme {
            Lexeme::Number(number) => self.put(Expr::Number(number)),
            Lexeme::Name(name) => self.put(Expr::Named(name)),
            Lexeme::Basis(basis) => Ok(Some(Mode::Basis(basis))),
            Lexeme::Linear(map) => Ok(Some(Mode::Opens(Call::Mapped(Map::Linear(map))))),
            Lexeme::Pair => Ok(Some(Mode::Opens(Call::First))),
            Lexeme::Along => Ok(Some(Mode::Opens(Call::Along))),
            Lexeme::Open => self.enter(alloc, Call::Group),
            _ => Ok(None),
        }
    }

    // At a sum.
    fn start(&mut self, alloc: Global, lexeme: Lexeme) -> Result<Option<Mode>, OutOfMemory>
        ensures { IfOk result (λ o. goes self.new o ≡ start_step self.old.base (reverse self.old.below) lexeme) }
    {
        let minus = matches!(&lexeme, Lexeme::Minus);
        self.level = Level::fresh(alloc, minus);
        if minus {
            Ok(Some(Mode::Operand))
        } else {
            self.operand(alloc, lexeme)
        }
    }

    // Behind the name of a basis.
    fn basis(
        &mut self,
        alloc: Global,
        basis: BasisId,
        lexeme: Lexeme,
    ) -> Result<Option<Mode>, OutOfMemory>
        ensures { IfOk result (λ o. goes self.new o ≡ basis_step self.old.base basis (reverse self.old.below) self.old.level lexeme) }
    {
        match lexeme {
            Lexeme::LeftBracket => Ok(Some(Mode::List(Listing::new(alloc, basis)))),
            Lexeme::Open => self.enter(alloc, Call::Mapped(Map::Convert(basis))),
            _ => Ok(None),
        }
    }

    // At an item of a list.
    fn item(&mut self, list: Listing, lexeme: Lexeme) -> Result<Option<Mode>, OutOfMemory>
        ensures { IfOk result (λ o. goes self.new o ≡ item_step self.old.base list.basis list.depth list.items (reverse self.old.below) self.old.level lexeme) }
    {
        match lexeme {
            Lexeme::Number(number) => {
                let list = list.followed_by(Lexeme::Number(number))?;
                Ok(Some(Mode::Behind(list)))
            }
            Lexeme::LeftBracket => Ok(Some(Mode::List(list.opened()?))),
            _ => Ok(None),
        }
    }

    // At the bracket that ends a list.
    fn end_list(&mut self, list: Listing) -> Result<Option<Mode>, OutOfMemory>
        ensures { IfOk result (λ o. goes self.new o ≡ list_ends self.old.base list.basis list.depth list.items (reverse self.old.below) self.old.level) }
    {
        if list.is_flat() {
            self.put(list.element())
        } else {
            Ok(Some(Mode::Behind(list.closed()?)))
        }
    }

    // At the beginning of a list.
    fn list(&mut self, list: Listing, lexeme: Lexeme) -> Result<Option<Mode>, OutOfMemory>
        ensures { IfOk result (λ o. goes self.new o ≡ list_step self.old.base list.basis list.depth list.items (reverse self.old.below) self.old.level lexeme) }
    {
        match lexeme {
            Lexeme::RightBracket => self.end_list(list),
            other => self.item(list, other),
        }
    }

    // Behind an item of a list.
    fn behind(&mut self, list: Listing, lexeme: Lexeme) -> Result<Option<Mode>, OutOfMemory>
        ensures { IfOk result (λ o. goes self.new o ≡ behind_step self.old.base list.basis list.depth list.items (reverse self.old.below) self.old.level lexeme) }
    {
        match lexeme {
            Lexeme::RightBracket => self.end_list(list),
            Lexeme::Comma => Ok(Some(Mode::Item(list.followed_by(Lexeme::Comma)?))),
            _ => Ok(None),
        }
    }

    // At the bracket of a call.
    fn opens(
        &mut self,
        alloc: Global,
        call: Call,
        lexeme: Lexeme,
    ) -> Result<Option<Mode>, OutOfMemory>
        ensures { IfOk result (λ o. goes self.new o ≡ opens_step self.old.base call (reverse self.old.below) self.old.level lexeme) }
    {
        match lexeme {
            Lexeme::Open => self.enter(alloc, call),
            _ => Ok(None),
        }
    }

    // At the number of a component, for a map.
    fn count(&mut self, map: Map, value: Boxed<Expr>, lexeme: Lexeme) -> Option<Mode>
        ensures { goes self.new result ≡ count_step self.old.base map value (reverse self.old.below) self.old.level lexeme }
    {
        match lexeme {
            Lexeme::Number(number) => Some(Mode::Counted(map, value, number)),
            _ => None,
        }
    }

    // Behind it.
    fn counted(
        &mut self,
        map: Map,
        value: Boxed<Expr>,
        number: u128,
        lexeme: Lexeme,
    ) -> Result<Option<Mode>, OutOfMemory>
        ensures { IfOk result (λ o. goes self.new o ≡ counted_step self.old.base map value number (reverse self.old.below) self.old.level lexeme) }
    {
        match lexeme {
            Lexeme::Close => self.put(mapped(map, value, Some(number))),
            _ => Ok(None),
        }
    }

    // At the number of a component, for `along`.
    fn component(&mut self, value: Boxed<Expr>, lexeme: Lexeme) -> Option<Mode>
        ensures { goes self.new result ≡ component_step self.old.base value (reverse self.old.below) self.old.level lexeme }
    {
        match lexeme {
            Lexeme::Number(number) => Some(Mode::Components(value, number)),
            _ => None,
        }
    }

    // Behind it.
    fn components(
        &mut self,
        alloc: Global,
        value: Boxed<Expr>,
        number: u128,
        lexeme: Lexeme,
    ) -> Option<Mode>
        ensures { goes self.new result ≡ components_step self.old.base value number (reverse self.old.below) self.old.level lexeme }
    {
        match lexeme {
            Lexeme::Comma => Some(Mode::Through(value, number, Items::new(alloc))),
            _ => None,
        }
    }

    // At the name of a basis, for `along`.
    fn through(
        &mut self,
        value: Boxed<Expr>,
        number: u128,
        mut bases: Items<BasisId>,
        lexeme: Lexeme,
    ) -> Result<Option<Mode>, OutOfMemory>
        ensures { IfOk result (λ o. goes self.new o ≡ through_step self.old.base value number bases (reverse self.old.below) self.old.level lexeme) }
    {
        match lexeme {
            Lexeme::Basis(basis) => {
                bases.push(basis)?;
                Ok(Some(Mode::Passed(value, number, bases)))
            }
            _ => Ok(None),
        }
    }

    // The whole of `along` was read.
    fn put_along(
        &mut self,
        alloc: Global,
        value: Boxed<Expr>,
        number: u128,
        bases: Items<BasisId>,
    ) -> Result<Option<Mode>, OutOfMemory>
        ensures { IfOk result (λ o. goes self.new o ≡ put self.old.base (Expr.Along value (component_of number) bases) (reverse self.old.below) self.old.level) }
    {
        let through = BasisList::from_slice(alloc, bases.as_slice())?;
        let component = component(number);
        self.put(Expr::Along {
            value,
            component,
            through,
        })
    }

    // Behind the name of a basis, for `along`.
    fn passed(
        &mut self,
        alloc: Global,
        value: Boxed<Expr>,
        number: u128,
        bases: Items<BasisId>,
        lexeme: Lexeme,
    ) -> Result<Option<Mode>, OutOfMemory>
        ensures { IfOk result (λ o. goes self.new o ≡ passed_step self.old.base value number bases (reverse self.old.below) self.old.level lexeme) }
    {
        match lexeme {
            Lexeme::Close => self.put_along(alloc, value, number, bases),
            Lexeme::Comma => Ok(Some(Mode::Through(value, number, bases))),
            _ => Ok(None),
        }
    }

    // A statement begins anew.
    fn restart(&mut self, alloc: Global, base: Base)
        ensures { self.new ≡ empty_stack base }
    {
        *self = Stack::new(alloc, base);
    }

    // The step by what is awaited, once a sum has begun.
    fn step_in_sum(
        &mut self,
        alloc: Global,
        mode: Mode,
        lexeme: Lexeme,
    ) -> Result<Option<Mode>, OutOfMemory>
        ensures { IfOk result (λ o. goes self.new o ≡ inner_step self.old.base mode (reverse self.old.below) self.old.level lexeme) }
    {
        match mode {
            Mode::First | Mode::Word(_) => Ok(None),
            Mode::Start => self.start(alloc, lexeme),
            Mode::Operand => self.operand(alloc, lexeme),
            Mode::After => self.after(alloc, lexeme),
            Mode::Opens(call) => self.opens(alloc, call, lexeme),
            Mode::Basis(basis) => self.basis(alloc, basis, lexeme),
            Mode::List(list) => self.list(list, lexeme),
            Mode::Item(list) => self.item(list, lexeme),
            Mode::Behind(list) => self.behind(list, lexeme),
            Mode::Count(map, value) => Ok(self.count(map, value, lexeme)),
            Mode::Counted(map, value, number) => self.counted(map, value, number, lexeme),
            Mode::Component(value) => Ok(self.component(value, lexeme)),
            Mode::Components(value, number) => Ok(self.components(alloc, value, number, lexeme)),
            Mode::Through(value, number, bases) => self.through(value, number, bases, lexeme),
            Mode::Passed(value, number, bases) => self.passed(alloc, value, number, bases, lexeme),
        }
    }

    // At the second lexeme, behind a word that begins a sum.
    fn second_in_sum(
        &mut self,
        alloc: Global,
        word: Lexeme,
        lexeme: Lexeme,
    ) -> Result<Option<Mode>, OutOfMemory>
        ensures { IfOk result (λ o. goes self.new o ≡ and_then (start_step Base.Plain [] word) lexeme) }
    {
        self.restart(alloc, Base::Plain);
        match self.start(alloc, word)? {
            None => Ok(None),
            Some(mode) => self.step_in_sum(alloc, mode, lexeme),
        }
    }

    // At the second lexeme, behind a word.
    fn second(
        &mut self,
        alloc: Global,
        word: Lexeme,
        lexeme: Lexeme,
    ) -> Result<Option<Mode>, OutOfMemory>
        ensures { IfOk result (λ o. goes self.new o ≡ word_step word lexeme) }
    {
        match lexeme {
            Lexeme::Assign => match word.into_word(alloc)? {
                None => Ok(None),
                Some(name) => {
                    self.restart(alloc, Base::Assigned(name));
                    Ok(Some(Mode::Start))
                }
            },
            other => self.second_in_sum(alloc, word, other),
        }
    }

    // At the first lexeme.
    fn first(&mut self, alloc: Global, lexeme: Lexeme) -> Result<Option<Mode>, OutOfMemory>
        ensures { IfOk result (λ o. goes self.new o ≡ first_step lexeme) }
    {
        self.restart(alloc, Base::Plain);
        if lexeme.is_word() {
            Ok(Some(Mode::Word(lexeme)))
        } else {
            self.start(alloc, lexeme)
        }
    }

    /// Reads one more lexeme: what is awaited behind it, where a statement begins with all of them.
    pub fn step(
        &mut self,
        alloc: Global,
        mode: Mode,
        lexeme: Lexeme,
    ) -> Result<Option<Mode>, OutOfMemory>
        ensures { IfOk result (λ o. goes self.new o ≡ step_of (state_with self.old mode) lexeme) }
    {
        match mode {
            Mode::First => self.first(alloc, lexeme),
            Mode::Word(word) => self.second(alloc, word, lexeme),
            mode => self.step_in_sum(alloc, mode, lexeme),
        }
    }

    // The statement where the text ends in a sum.
    fn end_of_sum(&mut self, alloc: Global, mode: Mode) -> Result<Option<Statement>, OutOfMemory>
        ensures { IfOk result (λ o. o ≡ inner_end self.old.base mode (reverse self.old.below) self.old.level) }
    {
        if mode.is_after() {
            discard(mode);
            self.end(alloc)
        } else {
            discard(mode);
            Ok(None)
        }
    }

    // The statement that is a word alone.
    fn end_of_word(&mut self, alloc: Global, word: Lexeme) -> Result<Option<Statement>, OutOfMemory>
        ensures { IfOk result (λ o. o ≡ end_of (start_step Base.Plain [] word)) }
    {
        self.restart(alloc, Base::Plain);
        match self.start(alloc, word)? {
            None => Ok(None),
            Some(mode) => self.end_of_sum(alloc, mode),
        }
    }

    /// The statement, where the lexemes so far are one.
    pub fn finish(&mut self, alloc: Global, mode: Mode) -> Result<Option<Statement>, OutOfMemory>
        ensures { IfOk result (λ o. o ≡ statement_at_end (state_with self.old mode)) }
    {
        match mode {
            Mode::First => Ok(Some(Statement::Empty)),
            Mode::Word(word) => self.end_of_word(alloc, word),
            mode => self.end_of_sum(alloc, mode),
        }
    }
}
